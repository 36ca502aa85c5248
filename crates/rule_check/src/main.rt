// Reads names and a rule text from standard input, and prints the rule's rows or its refusal.
#![tactic(auto)]

ghost use Rattle.std.specs.Prelude.{◌≡◌, cond};
ghost use Rattle.std.specs.Process.{exit_status};

mod reading;
pub mod running;

use crate::running::run;
use std::io;
use std::process::ExitCode;

// 0 where there is a rule, and 1 where it is refused.
fn status_of(is_rule: bool) -> ExitCode
    ensures { exit_status result ≡ cond is_rule 0 1 }
{
    if is_rule {
        ExitCode::SUCCESS
    } else {
        ExitCode::FAILURE
    }
}

fn main(rt: HostRuntime) -> io::Result<ExitCode> {
    let is_rule = run(&mut rt.stdin(), &mut rt.stdout())?;
    Ok(status_of(is_rule))
}
