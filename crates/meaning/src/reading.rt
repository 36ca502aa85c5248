// What a line may read at a tick.
ghost use Rattle.std.specs.Prelude.{◌≡◌, ◌≤ℤ◌};
ghost use Rattle.rules.specs.Rows.{NumberFits};

pub mod calls;
pub mod same;

/// A lower and an upper whole number from -500,000 to 500,000; what is read is one of those between them, both counted.
#[derive(Clone, Copy, PartialEq, Eq)]
pub struct Reading {
    lower: i32,
    upper: i32,
    ghost bottom: { NumberFits lower },
    ghost top: { NumberFits upper },
    ghost ordered: { lower ≤ℤ upper },
}

impl Reading {
    /// The least that may be read.
    pub fn lower(self) -> i32
        ensures { result ≡ self.lower }
    {
        self.lower
    }

    /// The greatest that may be read.
    pub fn upper(self) -> i32
        ensures { result ≡ self.upper }
    {
        self.upper
    }
}
