// The distance of a reading from a limit.
ghost use Rattle.std.specs.Prelude.{◌≡◌, MatchOption};
ghost use Rattle.grades.specs.Gaps.{GapFits};

// A whole number from -1,000,000 to 1,000,000.
#[derive(Clone, Copy)]
pub struct Gap {
    number: i32,
    ghost ok: { GapFits number },
}

impl Gap {
    // A number out of those bounds is no gap.
    pub fn new(number: i32) -> Option<Gap>
        ensures { MatchOption result (GapFits number → ⊥) (λ gap. gap.number ≡ number) }
    {
        if number < -1_000_000 || number > 1_000_000 {
            None
        } else {
            Some(Gap { number })
        }
    }

    pub fn number(self) -> i32
        ensures { result ≡ self.number }
    {
        self.number
    }
}
