// Cases that a person can write: a text whose lines are packed into the fields of a case.
#![tactic(auto)]

pub mod fault;
mod field;
mod keyword;
pub mod laws;
pub mod line;
pub mod number;
pub mod packing;
pub mod split;
pub mod word;

pub use crate::fault::BadLine;
pub use crate::packing::pack;
