// What the random trials came to.
use std::{fmt, io};

#[derive(Default, Drop)]
pub(crate) struct Count(u64);

impl Count {
    pub(crate) fn add(&mut self, more: usize) {
        self.0 = self.0.saturating_add(more as u64);
    }
}

impl fmt::Display for Count {
    fn fmt<W: fmt::Write>(&self, f: &mut fmt::Formatter<W>) -> fmt::Result {
        write!(f, "{}", self.0)
    }
}

#[derive(Default, Drop)]
pub(crate) struct Counts {
    pub(crate) mixed: Count,
    pub(crate) grouped: Count,
    pub(crate) rules: Count,
    pub(crate) too_far: Count,
    pub(crate) accepted: Count,
    pub(crate) refused: Count,
    pub(crate) turned_down: Count,
    pub(crate) markings: Count,
    pub(crate) settled: Count,
    pub(crate) marks: Count,
    pub(crate) narrowed: Count,
    pub(crate) untouched: Count,
    pub(crate) exact: Count,
    pub(crate) unable: Count,
}

impl Counts {
    pub(crate) fn print(&self, rt: &HostRuntime) -> io::Result<()> {
        for (count, label) in [
            (&self.mixed, "times & beside | without brackets"),
            (
                &self.grouped,
                "times & behind &, or | behind |, without brackets",
            ),
            (&self.rules, "rules read"),
            (&self.too_far, "texts that look too far"),
            (&self.accepted, "entries accepted"),
            (&self.refused, "entries refused"),
            (&self.turned_down, "judgements turned down"),
            (&self.markings, "markings"),
            (&self.settled, "of them settled"),
            (&self.marks, "marks"),
            (&self.narrowed, "verdicts after an entry"),
            (&self.untouched, "of them before any mark was touched"),
            (&self.exact, "settled by exact readings at all marks"),
            (
                &self.unable,
                "that take no such readings: sealed, or too many pieces",
            ),
        ] {
            println!(rt; "{count} {label}")?;
        }
        Ok(())
    }
}
