// Grades that say by how much.
ghost use Rattle.std.specs.Prelude.{◌≡◌, pos, negsuc, neg_ℤ, ◌≤ℤ◌};
ghost use Rattle.std.specs.Int.{int_min, int_max};
ghost use Rattle.grades.specs.Gaps.{GapFits};
ghost use Rattle.grades.specs.Kinds.{Tells};
ghost use Rattle.grades.specs.Margins.{margins};
ghost use Rattle.grades.specs.Lawful.{margins_lawful};

use crate::gap::Gap;
use crate::grade::{Grade, one_value};

// A whole number from -1,000,000 to 1,000,000. It is a type beside `Gap`, since a gap is measured and is no grade; its clauses read the number straight from it.
#[derive(Clone, Copy)]
pub struct Margin {
    number: i32,
    ghost ok: { GapFits number },
}

impl Margin {
    pub fn number(self) -> i32
        ensures { result ≡ self.number }
    {
        self.number
    }
}

// Each clause says which number comes, whatever the kind says of values.
impl Grade for Margin {
    ghost kind = { margins };

    ghost value = { λ m. record { number = m.number; ok = m.ok } };

    ghost lawful = { margins_lawful };

    fn at_most(self, other: Margin) -> bool
        ensures { Tells result (self.number ≤ℤ other.number) }
    {
        self.number <= other.number
    }

    fn same(self, other: Margin) -> bool
        ensures { Tells result (self.number ≡ other.number) }
    {
        self.number == other.number
    }

    fn lower(self, other: Margin) -> Margin
        ensures { result.number ≡ int_min self.number other.number }
    {
        if other.number < self.number {
            other
        } else {
            self
        }
    }

    fn upper(self, other: Margin) -> Margin
        ensures { result.number ≡ int_max self.number other.number }
    {
        if self.number < other.number {
            other
        } else {
            self
        }
    }

    fn opposite(self) -> Margin
        ensures { result.number ≡ neg_ℤ self.number }
    {
        Margin {
            number: -self.number,
        }
    }

    fn lowest() -> Margin
        ensures { result.number ≡ negsuc 999999 }
    {
        Margin { number: -1_000_000 }
    }

    fn highest() -> Margin
        ensures { result.number ≡ pos 1000000 }
    {
        Margin { number: 1_000_000 }
    }

    fn from_gap(gap: Gap) -> Margin
        ensures { result.number ≡ gap.number }
    {
        Margin {
            number: gap.number(),
        }
    }
}

// What a margin stands for is its number: margins of one value have one number, so a kind with one value for everything does not pass for margin.
pub fn margin_is_its_number(one: Margin, other: Margin) -> bool
    ensures { Tells result (one.number ≡ other.number) }
{
    one_value(one, other)
}
