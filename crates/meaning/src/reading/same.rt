// Readings can be told equal.
ghost use Rattle.meaning.specs.declared.reading.Reading.{Reading};

use crate::reading::Reading;
use pieces::same::Same;

/// A reading stands for itself: two are the same where their ends are.
impl Same for Reading {
    ghost Value = { Reading };

    ghost value = { λ p. p };

    fn same(self, other: Reading) -> bool {
        Reading::same(self, other)
    }
}
