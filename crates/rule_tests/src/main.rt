// Runs rule texts, whole inputs and words at the edges of their rules, and prints what each is answered.
#![tactic(auto)]

mod inputs;
mod outcome;
mod refusals;
mod tally;
mod texts;
mod words;

use inputs::INPUTS;
use refusals::REFUSALS;
use std::io;
use tally::{Tally, run_all};
use texts::RULES;
use words::{FAULTS, WORDS};

fn main(rt: HostRuntime) -> io::Result<()> {
    let mut tally = Tally { cases: 0, wrong: 0 };
    run_all(&RULES, &rt, &mut tally)?;
    run_all(&REFUSALS, &rt, &mut tally)?;
    run_all(&INPUTS, &rt, &mut tally)?;
    run_all(&WORDS, &rt, &mut tally)?;
    run_all(&FAULTS, &rt, &mut tally)?;
    let cases = tally.cases;
    let wrong = tally.wrong;
    println!(rt; "{cases} cases, {wrong} wrong")
}
