// Holds jobs and the judge against the reference, on random rules and random jobs.
#![tactic(auto)]

mod counts;
mod dice;
mod entries;
mod follow;
mod texts;
mod trial;

use counts::Counts;
use dice::Dice;
use std::io;
use trial::Trials;

// How many random rules are written.
const TRIALS: u32 = 20_000;

// Any number but 0: the trials go by it.
const SEED: u64 = 88_172_645_463_325_252;

fn main(rt: HostRuntime) -> io::Result<()> {
    let mut trials = Trials {
        heap: rt.alloc(),
        dice: Dice { state: SEED },
        counts: Counts::default(),
    };
    for k in 0..TRIALS {
        let mut text = String::new(rt.alloc());
        if let Err(mismatch) = trials.run(&mut text, k % 4 == 0) {
            println!(rt; "WRONG trial {k} {text}: {mismatch:?}")?;
        }
    }
    trials.counts.print(&rt)
}
