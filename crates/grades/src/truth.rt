// Grades that say yes or no.
ghost use Rattle.std.specs.Prelude.{◌≡◌, true, false, not, ◌&&◌, ◌||◌, pos, int_le};
ghost use Rattle.grades.specs.Kinds.{Tells};
ghost use Rattle.grades.specs.Truths.{truths, Implied};
ghost use Rattle.grades.specs.Lawful.{truths_lawful};

use crate::gap::Gap;
use crate::grade::{Grade, one_value};

#[derive(Clone, Copy)]
pub struct Truth {
    pub holds: bool,
}

// Each clause says which of the two answers comes, whatever the kind says of values.
impl Grade for Truth {
    ghost kind = { truths };

    ghost value = { λ t. t.holds };

    ghost lawful = { truths_lawful };

    fn at_most(self, other: Truth) -> bool
        ensures { Tells result (Implied self.holds other.holds) }
    {
        !self.holds | other.holds
    }

    fn same(self, other: Truth) -> bool
        ensures { Tells result (self.holds ≡ other.holds) }
    {
        self.holds == other.holds
    }

    fn lower(self, other: Truth) -> Truth
        ensures { result.holds ≡ (self.holds && other.holds) }
    {
        Truth {
            holds: self.holds & other.holds,
        }
    }

    fn upper(self, other: Truth) -> Truth
        ensures { result.holds ≡ (self.holds || other.holds) }
    {
        Truth {
            holds: self.holds | other.holds,
        }
    }

    fn opposite(self) -> Truth
        ensures { result.holds ≡ not self.holds }
    {
        Truth { holds: !self.holds }
    }

    fn lowest() -> Truth
        ensures { result.holds ≡ false }
    {
        Truth { holds: false }
    }

    fn highest() -> Truth
        ensures { result.holds ≡ true }
    {
        Truth { holds: true }
    }

    fn from_gap(gap: Gap) -> Truth
        ensures { result.holds ≡ int_le (pos 0) gap.number }
    {
        Truth {
            holds: gap.number() >= 0,
        }
    }
}

// What a truth stands for is its answer: truths of one value have one answer, so a kind with one value for everything does not pass for truth.
pub fn truth_is_two_valued(one: Truth, other: Truth) -> bool
    ensures { Tells result (one.holds ≡ other.holds) }
{
    one_value(one, other)
}
