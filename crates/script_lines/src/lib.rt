// Scripts: texts whose lines say which calls to make on a job, and what to show of the cells in between.
#![tactic(auto)]

pub mod fault;
mod keyword;
mod line;
mod reader;
pub mod script;
pub mod step;
mod words;
