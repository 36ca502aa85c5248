// The numbers and places of the refusals.
ghost use Rattle.std.specs.Prelude.{◌≡◌};
ghost use Rattle.cases.specs.Faults.{case_number, case_place};
ghost use Rattle.cases.specs.Headings.{refusal};

use crate::fault::{CaseFault, CaseRefusal};

impl CaseFault {
    // The refusal of a field that has the fault.
    pub(crate) fn at(self, field: usize) -> CaseRefusal
        ensures { result ≡ refusal field self }
    {
        CaseRefusal { field, fault: self }
    }

    // 12 to 22, by which users know the refusal.
    pub fn number(self) -> u8
        ensures { result ≡ case_number self }
    {
        match self {
            CaseFault::TooLong => 22,
            CaseFault::BadField => 20,
            CaseFault::Misplaced => 21,
            CaseFault::Rule(fault) => fault.number(),
        }
    }

    // The byte of the rule's text that it is about, if it is about the rule.
    pub fn place(self) -> Option<usize>
        ensures { result ≡ case_place self }
    {
        match self {
            CaseFault::Rule(fault) => Some(fault.place()),
            CaseFault::TooLong | CaseFault::BadField | CaseFault::Misplaced => None,
        }
    }
}
