// The cells that a caller lends to the judge.
#![tactic(auto)]

pub mod blank;
pub mod cells;
