// What the program `rule_check` reads and writes: its input, of which only what can matter is kept, and its listing.
#![tactic(auto)]

mod front;
pub mod input;
pub mod laws;
pub mod listing;
mod names;
pub mod row_line;
