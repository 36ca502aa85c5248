// Piece lists: values over all ticks, for any kind of value that can be told equal.
#![tactic(auto)]

pub mod laws;
pub mod list;
pub mod piece;
pub mod ranges;
pub mod same;
pub mod signal;
pub mod sweep;
pub mod ticks;
