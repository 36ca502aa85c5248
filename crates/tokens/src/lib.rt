#![tactic(auto)]

pub mod digits;
pub mod fault;
pub mod laws;
pub mod lexer;
pub mod list;
pub mod token;
