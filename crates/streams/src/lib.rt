// Reading from a source and writing to a sink, in however many parts both give and take, so that what an error leaves is known.
#![tactic(auto)]

pub mod buffer;
pub mod sink;
pub mod source;
