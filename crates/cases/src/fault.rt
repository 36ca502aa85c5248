// Why a case is turned down.
ghost use Rattle.std.specs.Prelude.{◌≡◌};
ghost use Rattle.cases.specs.declared.fault.CaseFault.TheVariants.{Rule};

use rules::fault::RuleFault;

#[derive(Clone, Copy, PartialEq, Eq)]
pub enum CaseFault {
    // The case has over 16,384 bytes.
    TooLong,
    // The field is cut short, or its tag or its length is wrong.
    BadField,
    // No field is there, or this one may not stand here; or its name is no name, or an earlier field has it.
    Misplaced,
    // The rule's text is no rule.
    Rule(RuleFault),
}

impl From<RuleFault> for CaseFault {
    ghost from_gives = { λ e r. r ≡ Rule e };

    fn from(fault: RuleFault) -> CaseFault {
        CaseFault::Rule(fault)
    }
}

// A fault, and the number of the field that has it: fields count from 1, and field 0 is the case as a whole.
#[derive(Clone, Copy, PartialEq, Eq)]
pub struct CaseRefusal {
    pub field: usize,
    pub fault: CaseFault,
}
