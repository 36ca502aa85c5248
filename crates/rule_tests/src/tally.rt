// How many cases were run, and how many were answered wrong.
ghost use Rattle.rule_tests.specs.Outcomes.{Counted};

use std::{fmt, io};

#[derive(Drop)]
pub(crate) struct Tally {
    pub(crate) cases: u64,
    pub(crate) wrong: u64,
}

impl Tally {
    // Counts a case and prints what it is answered. Whether that is right is a flag, since callers find the two in different ways.
    pub(crate) fn note(
        &mut self,
        rt: &HostRuntime,
        label: impl fmt::Display + Drop,
        found: impl fmt::Display + Drop,
        right: bool,
    ) -> io::Result<()>
        ensures { Counted right self.old self.new }
    {
        self.cases = self.cases.saturating_add(1);
        if right {
            println!(rt; "{label}: {found}")
        } else {
            self.wrong = self.wrong.saturating_add(1);
            println!(rt; "WRONG {label}: {found}")
        }
    }
}

// What can be run, and notes how it came out.
pub(crate) trait Run {
    fn run(&self, rt: &HostRuntime, tally: &mut Tally) -> io::Result<()>;
}

// Runs each case in turn.
pub(crate) fn run_all<T: Run>(cases: &[T], rt: &HostRuntime, tally: &mut Tally) -> io::Result<()> {
    for case in cases {
        case.run(rt, tally)?;
    }
    Ok(())
}
