// Why a judgement or a marking is turned down.
ghost use Rattle.std.specs.Prelude.{◌≡◌};
ghost use Rattle.judge.specs.declared.fault.JudgeFault.TheVariants.{RowCells};
ghost use Rattle.judge.specs.declared.fault.MarkFault.TheVariants.{Judging};

use pieces::sweep::Full;

// In the order of the checks: the first that holds is the answer.
#[derive(Clone, Copy, PartialEq, Eq)]
pub enum JudgeFault {
    // The rule tests a line that the job lacks.
    NoSuchLine,
    // The tick is above 500,000,000.
    LateTick,
    // The row lists need more cells than there are.
    RowCells,
}

impl From<Full> for JudgeFault {
    ghost from_gives = { λ e r. r ≡ RowCells };

    fn from(_full: Full) -> JudgeFault {
        JudgeFault::RowCells
    }
}

// What stands against judging stands against marking too, and comes first.
#[derive(Clone, Copy, PartialEq, Eq)]
pub enum MarkFault {
    // The rule cannot be judged at the tick.
    Judging(JudgeFault),
    // The want lists need more cells than there are.
    WantCells,
    // The marks need more cells than there are.
    MarkCells,
}

impl From<JudgeFault> for MarkFault {
    ghost from_gives = { λ e r. r ≡ Judging e };

    fn from(fault: JudgeFault) -> MarkFault {
        MarkFault::Judging(fault)
    }
}
