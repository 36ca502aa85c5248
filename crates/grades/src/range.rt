// Ranges of grades.
ghost use Rattle.std.specs.Prelude.{◌≡◌};
ghost use Rattle.grades.specs.Kinds.{Tells};
ghost use Rattle.grades.specs.Ranges.{spans, Inside, Holds, Settled};
ghost use Rattle.grades.specs.Worth.{worth};

use crate::grade::Grade;

// What is known of a grade: its value is between the two, both counted.
#[derive(Clone, Copy)]
pub struct Range<G> {
    pub lower: G,
    pub upper: G,
}

impl<G: Grade> Range<G> {
    // End by end.
    pub fn lower(self, other: Range<G>) -> Range<G>
        ensures { worth G.kind G.value result ≡ (spans G.kind).meet (worth G.kind G.value self) (worth G.kind G.value other) }
    {
        Range {
            lower: self.lower.lower(other.lower),
            upper: self.upper.lower(other.upper),
        }
    }

    // End by end.
    pub fn upper(self, other: Range<G>) -> Range<G>
        ensures { worth G.kind G.value result ≡ (spans G.kind).join (worth G.kind G.value self) (worth G.kind G.value other) }
    {
        Range {
            lower: self.lower.upper(other.lower),
            upper: self.upper.upper(other.upper),
        }
    }

    // The ends change places, since opposites turn the order round.
    pub fn opposite(self) -> Range<G>
        ensures { worth G.kind G.value result ≡ (spans G.kind).opposite (worth G.kind G.value self) }
    {
        Range {
            lower: self.upper.opposite(),
            upper: self.lower.opposite(),
        }
    }

    pub fn same(self, other: Range<G>) -> bool
        ensures { Tells result (worth G.kind G.value self ≡ worth G.kind G.value other) }
    {
        self.lower.same(other.lower) & self.upper.same(other.upper)
    }

    // Whether nothing is left open.
    pub fn settled(self) -> bool
        ensures { Tells result (Settled G.kind (worth G.kind G.value self)) }
    {
        self.lower.same(self.upper)
    }

    pub fn inside(self, other: Range<G>) -> bool
        ensures { Tells result (Inside G.kind (worth G.kind G.value self) (worth G.kind G.value other)) }
    {
        other.lower.at_most(self.lower) & self.upper.at_most(other.upper)
    }

    pub fn holds(self, grade: G) -> bool
        ensures { Tells result (Holds G.kind (worth G.kind G.value self) (G.value grade)) }
    {
        self.lower.at_most(grade) & grade.at_most(self.upper)
    }
}
