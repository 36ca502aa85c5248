// The numbers by which users know the refusals.
ghost use Rattle.std.specs.Prelude.{◌≡◌};
ghost use Rattle.jobs.specs.Faults.{enter_fault_number, missing_line_number};

use crate::fault::{EnterFault, NoSuchLine};

impl EnterFault {
    /// From 1 to 6, in the order of the cases.
    pub fn number(self) -> u8
        ensures { result ≡ enter_fault_number self }
    {
        match self {
            EnterFault::Sealed => 1,
            EnterFault::NoSuchLine => NoSuchLine.number(),
            EnterFault::BadStretch => 3,
            EnterFault::NotReading => 4,
            EnterFault::NotInside => 5,
            EnterFault::TooManyPieces => 6,
        }
    }
}

impl NoSuchLine {
    /// 2, as for an entry.
    pub fn number(self) -> u8
        ensures { result ≡ missing_line_number self }
    {
        2
    }
}
