// What rules mean: readings, the values of rows, verdicts, wants and marks, and the laws that they keep.
#![tactic(auto)]

pub mod laws;
pub mod mark;
pub mod outcome;
pub mod reading;
pub mod worked;
