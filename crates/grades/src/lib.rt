// Grades: what a rule is worth, in truth or by how much, and ranges of grades.
#![tactic(auto)]

pub mod gap;
pub mod grade;
pub mod margin;
pub mod range;
pub mod truth;
