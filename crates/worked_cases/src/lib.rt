// Worked cases from their texts on: what is said of them by hand elsewhere, joined by the definitions of texts.
#![tactic(auto)]

pub mod laws;
