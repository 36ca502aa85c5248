// Ranges of grades can be told equal, by the values at their ends.
ghost use Rattle.grades.specs.Ranges.{Span};
ghost use Rattle.grades.specs.Worth.{worth};

use crate::same::Same;
use grades::grade::Grade;
use grades::range::Range;

impl<G: Grade> Same for Range<G> {
    ghost Value = { Span G.Grade.kind.Value };

    ghost value = { worth G.Grade.kind G.Grade.value };

    fn same(self, other: Range<G>) -> bool {
        Range::same(self, other)
    }
}
