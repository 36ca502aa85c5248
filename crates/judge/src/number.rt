// The numbers by which users know the refusals.
ghost use Rattle.std.specs.Prelude.{◌≡◌};
ghost use Rattle.judge.specs.Faults.{judge_number, mark_number};

use crate::fault::{JudgeFault, MarkFault};

impl JudgeFault {
    pub fn number(self) -> u8
        ensures { result ≡ judge_number self }
    {
        match self {
            JudgeFault::NoSuchLine => 7,
            JudgeFault::LateTick => 8,
            JudgeFault::RowCells => 9,
        }
    }
}

impl MarkFault {
    pub fn number(self) -> u8
        ensures { result ≡ mark_number self }
    {
        match self {
            MarkFault::Judging(fault) => fault.number(),
            MarkFault::WantCells => 10,
            MarkFault::MarkCells => 11,
        }
    }
}
