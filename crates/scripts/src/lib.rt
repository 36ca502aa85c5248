// Lists of calls on a job, carried out one after the other.
#![tactic(auto)]

pub mod call;
pub mod listener;
pub mod playing;
pub mod reply;
pub mod script;
mod within;
