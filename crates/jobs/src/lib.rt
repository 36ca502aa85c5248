// A job: what is known of each line at each tick, kept as pieces in cells that the caller lends.
#![tactic(auto)]

pub mod calls;
mod edit;
mod entering;
pub mod fault;
mod held;
pub mod job;
mod look;
pub mod number;
pub mod opening;
mod plan;
mod splice;
mod stretch;
