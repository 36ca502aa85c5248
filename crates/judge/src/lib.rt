// The judge: the ranges of a rule's rows over the readings of a job, and the marks, in the caller's cells.
#![tactic(auto)]

mod all_marks;
mod child;
pub mod fault;
mod job_lines;
mod judged;
mod judgement;
pub mod judging;
mod limits;
mod lines;
mod lists;
mod look;
pub mod marking;
pub mod number;
mod ors;
mod rows;
mod steps;
mod stretches;
mod table;
mod trial;
mod tried;
mod until;
mod want_lists;
mod want_signals;
mod window;
mod yes;
mod yesno;
