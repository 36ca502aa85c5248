// Runs of calls on a job, and the law that holds of all of them.
#![tactic(auto)]

pub mod family;
pub mod law;
