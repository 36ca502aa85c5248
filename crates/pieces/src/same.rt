// Values that can be told equal.
ghost use Rattle.std.specs.Prelude.{◌≡◌, Bool};
ghost use Rattle.grades.specs.Kinds.{Tells};

/// Values are the same if they stand for the same, and only then; of equality by `==` no law says so much.
pub trait Same: Copy {
    ghost Value: { Type 0 };

    ghost value: { Self → Value };

    /// Whether both stand for the same.
    fn same(self, other: Self) -> bool
        ensures { Tells result (value self ≡ value other) };
}

impl Same for bool {
    ghost Value = { Bool };

    ghost value = { λ b. b };

    fn same(self, other: bool) -> bool {
        self == other
    }
}
