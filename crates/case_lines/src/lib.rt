// The listing of a case: its fields carried out in turn on a job, and the lines that each prints.
#![tactic(auto)]

mod carrying;
pub mod cells;
pub mod field_lister;
pub mod laws;
pub mod leaving;
pub mod line;
pub mod lines;
pub mod lister;
pub mod listing;
pub mod opening;
mod printed;
mod sink;
mod ticking;
