// Cases: line names, a rule, and then entries and ticks, as fields of one run of bytes.
#![tactic(auto)]

pub mod call;
pub mod fault;
pub mod field;
pub mod heading;
pub mod laws;
pub mod names;
pub mod number;
pub mod opening;
pub mod reader;
pub mod reading;
pub mod stepping;
pub mod tag;
