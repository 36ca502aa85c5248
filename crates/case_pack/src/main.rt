// Reads the text of a case from standard input, and writes the bytes of the case to standard output.
#![tactic(auto)]

pub mod running;

use crate::running::run;
use std::io;
use std::process::ExitCode;

// Ends with status 1 where a line is bad.
fn main(rt: HostRuntime) -> io::Result<ExitCode> {
    match run(&mut rt.stdin(), &mut rt.stdout(), rt.alloc())? {
        Ok(()) => Ok(ExitCode::SUCCESS),
        Err(fault) => {
            let number = fault.number;
            eprintln!(rt; "bad line {number}")?;
            Ok(ExitCode::FAILURE)
        }
    }
}
