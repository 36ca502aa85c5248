// What is printed of each case at an edge.
use std::{fmt, io};

#[derive(Drop)]
pub(crate) struct Report<'r> {
    pub(crate) rt: &'r HostRuntime,
    pub(crate) cases: u64,
    pub(crate) wrong: u64,
}

impl Report<'_> {
    // Counts a case and prints what it is answered. What is found and whether it is right come apart: the callers find them in different ways.
    pub(crate) fn note(
        &mut self,
        label: &str,
        found: impl fmt::Debug + Drop,
        right: bool,
    ) -> io::Result<()> {
        self.cases = self.cases.saturating_add(1);
        if right {
            println!(self.rt; "{label}: {found:?}")
        } else {
            self.wrong = self.wrong.saturating_add(1);
            println!(self.rt; "WRONG {label}: {found:?}")
        }
    }
}
