// Reads a case from standard input, and prints its listing.
#![tactic(auto)]

mod reading;
pub mod running;
#[cfg(test)]
mod sips;

use crate::running::run;
use std::io;

fn main(rt: HostRuntime) -> io::Result<()> {
    run(&mut rt.stdin(), &mut rt.stdout())
}
