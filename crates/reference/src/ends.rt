// Ranges of grades as plain numbers.
ghost use Rattle.std.specs.Prelude.{◌≡◌, ℤ, pos, negsuc, refl};
ghost use Rattle.std.specs.Int.{int_min, int_max};
ghost use Rattle.reference.specs.Gradings.{Grading, GradingLaws, truth_grading, margin_grading, truth_grading_lawful, margin_grading_lawful};
ghost use Rattle.grades.specs.Kinds.{Tells};
ghost use Rattle.reference.specs.Known.{ends_of, EndsWithin};

use cases::field::Entry;

// A kind of grades as numbers.
pub trait Scale {
    const LOWEST: i32;

    ghost LOWEST: { ℤ };

    ghost grading: { Grading };

    // The grade of a gap.
    fn grade(gap: i32) -> i32
        ensures { result ≡ grading.of_gap gap };

    fn opposite(grade: i32) -> i32
        ensures { grading.Grade grade → result ≡ grading.opposite grade };

    ghost lowest: { LOWEST ≡ grading.lowest };

    ghost lawful: { GradingLaws grading };
}

// 0 and 1 for false and true.
pub struct Truths;

impl Scale for Truths {
    const LOWEST: i32 = 0;

    ghost LOWEST = { pos 0 };

    ghost grading = { truth_grading };

    ghost lowest = { refl };

    ghost lawful = { truth_grading_lawful };

    fn grade(gap: i32) -> i32 {
        (gap >= 0) as i32
    }

    fn opposite(grade: i32) -> i32 {
        1i32.wrapping_sub(grade)
    }
}

// The gaps themselves.
pub struct Margins;

impl Scale for Margins {
    const LOWEST: i32 = -1_000_000;

    ghost LOWEST = { negsuc 999999 };

    ghost grading = { margin_grading };

    ghost lowest = { refl };

    ghost lawful = { margin_grading_lawful };

    fn grade(gap: i32) -> i32 {
        gap
    }

    fn opposite(grade: i32) -> i32 {
        0i32.wrapping_sub(grade)
    }
}

// A lower and an upper end, of a reading or of a range of grades.
#[derive(Clone, Copy, PartialEq, Eq)]
pub struct Ends {
    pub lower: i32,
    pub upper: i32,
}

// The ends of an entry's reading.
impl From<Entry> for Ends {
    ghost from_gives = { λ e r. r ≡ ends_of e };

    fn from(entry: Entry) -> Ends {
        Ends {
            lower: entry.lower,
            upper: entry.upper,
        }
    }
}

impl Ends {
    // The lower of two, end by end.
    pub fn lower_of(self, other: Ends) -> Ends
        ensures { result ≡ record { lower = int_min self.lower other.lower; upper = int_min self.upper other.upper } }
    {
        Ends {
            lower: self.lower.min(other.lower),
            upper: self.upper.min(other.upper),
        }
    }

    // The upper of two, end by end.
    pub fn upper_of(self, other: Ends) -> Ends
        ensures { result ≡ record { lower = int_max self.lower other.lower; upper = int_max self.upper other.upper } }
    {
        Ends {
            lower: self.lower.max(other.lower),
            upper: self.upper.max(other.upper),
        }
    }

    pub fn opposite<S: Scale>(self) -> Ends
        ensures lower { S.grading.Grade self.upper → result.lower ≡ S.grading.opposite self.upper }
        ensures upper { S.grading.Grade self.lower → result.upper ≡ S.grading.opposite self.lower }
    {
        Ends {
            lower: S::opposite(self.upper),
            upper: S::opposite(self.lower),
        }
    }

    // Whether both ends are one number.
    pub fn settled(self) -> bool
        ensures { Tells result (self.lower ≡ self.upper) }
    {
        self.lower == self.upper
    }

    pub fn inside(self, other: Ends) -> bool
        ensures { Tells result (EndsWithin self other) }
    {
        other.lower <= self.lower && self.upper <= other.upper
    }
}
