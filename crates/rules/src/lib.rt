// Rule texts: from bytes to the rows that the judge works on.
#![tactic(auto)]

mod checks;
pub mod fault;
mod fill;
pub mod laws;
mod modality;
mod number;
pub mod parents;
mod reach;
mod read;
mod readers;
pub mod row;
pub mod rule;
pub mod same;
mod table;
pub mod tested;
