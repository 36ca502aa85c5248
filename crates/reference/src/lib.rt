// What a job answers and what a rule is worth, worked out tick by tick from the definitions, to hold the judge against.
#![tactic(auto)]

pub mod ends;
pub mod forecast;
pub mod marks;
pub mod values;
pub mod wants;
