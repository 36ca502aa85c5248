// Making and comparing readings.
ghost use Rattle.std.specs.Prelude.{◌≡◌};
ghost use Rattle.grades.specs.Kinds.{Tells};
ghost use Rattle.meaning.specs.Readings.{widest, ReadingWith, Within, Exact};

use crate::reading::Reading;

impl Reading {
    /// The reading with these ends; none where they are out of bounds or in the wrong order.
    pub fn new(lower: i32, upper: i32) -> Option<Reading>
        ensures { ReadingWith lower upper result }
    {
        if lower < -500_000 || upper > 500_000 || lower > upper {
            None
        } else {
            Some(Reading { lower, upper })
        }
    }

    /// The reading that says nothing: from -500,000 to 500,000.
    pub fn widest() -> Reading
        ensures { result ≡ widest }
    {
        Reading {
            lower: -500_000,
            upper: 500_000,
        }
    }

    /// Whether each end lies between those of the other, both counted.
    pub fn inside(self, other: Reading) -> bool
        ensures { Tells result (Within self other) }
    {
        other.lower <= self.lower && self.upper <= other.upper
    }

    /// Whether the two ends are equal.
    pub fn exact(self) -> bool
        ensures { Tells result (Exact self) }
    {
        self.lower == self.upper
    }

    /// Whether both ends are those of the other.
    pub fn same(self, other: Reading) -> bool
        ensures { Tells result (self ≡ other) }
    {
        self == other
    }
}
