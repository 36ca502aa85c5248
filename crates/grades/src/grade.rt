// What every kind of grade can do.
ghost use Rattle.std.specs.Prelude.{◌≡◌};
ghost use Rattle.grades.specs.Kinds.{Kind, Lawful, Tells};

use crate::gap::Gap;

// Grades go by the values that they stand for: several grades may stand for one value.
pub trait Grade: Copy {
    // The values, with their order and operations.
    ghost kind: { Kind };

    ghost value: { Self → kind.Value };

    fn at_most(self, other: Self) -> bool
        ensures { Tells result (kind.below (value self) (value other)) };

    // Not `==`: it says yes exactly where both stand for one value, and no law of `PartialEq` says so much.
    fn same(self, other: Self) -> bool
        ensures { Tells result (value self ≡ value other) };

    fn lower(self, other: Self) -> Self
        ensures { value result ≡ kind.meet (value self) (value other) };

    fn upper(self, other: Self) -> Self
        ensures { value result ≡ kind.join (value self) (value other) };

    fn opposite(self) -> Self
        ensures { value result ≡ kind.opposite (value self) };

    fn lowest() -> Self
        ensures { value result ≡ kind.lowest };

    fn highest() -> Self
        ensures { value result ≡ kind.highest };

    fn from_gap(gap: Gap) -> Self
        ensures { value result ≡ kind.of_gap gap.number };

    ghost lawful: { Lawful kind };
}

// Whether two grades stand for one value, by what every grade promises and no more.
pub fn one_value<G: Grade>(one: G, other: G) -> bool
    ensures { Tells result (G.value one ≡ G.value other) }
{
    one.same(other)
}
