// Holding a job and the judge against the reference: answers, cells and what is left of them.
#![tactic(auto)]

pub mod cells;
pub mod entries;
pub mod judging;
pub mod lent;
mod lists;
pub mod marking;
pub mod mismatch;
pub mod question;
