// Families of kinds, so that one list of calls may judge in any mixture of them.
ghost use Rattle.std.specs.Prelude.{Bool, true, false};
ghost use Rattle.grades.specs.Kinds.{Kind, Lawful};

use grades::grade::Grade;

// Any number of kinds of grade, of which each has a name.
pub trait Family {
    ghost Name: { Type 0 };

    ghost kinds: { Name → Kind };
}

// A family of which each kind keeps the laws.
pub trait Kinds: Family {
    ghost lawful: { (n : Self.Name) → Lawful (Self.kinds n) };
}

// The family of one kind.
pub struct Alone<G> {
    pub grade: G,
}

impl<G: Grade> Family for Alone<G> {
    ghost Name = { Unit {0} };

    ghost kinds = { λ n. G.Grade.kind };
}

impl<G: Grade> Kinds for Alone<G> {
    ghost lawful = { λ n. G.Grade.lawful };
}

// The family of two kinds, as of truth and margin.
pub struct Both<F, S> {
    pub first: F,
    pub second: S,
}

impl<F: Grade, S: Grade> Family for Both<F, S> {
    ghost Name = { Bool };

    ghost kinds = { elim [ true ↦ F.Grade.kind | false ↦ S.Grade.kind ] };
}

impl<F: Grade, S: Grade> Kinds for Both<F, S> {
    ghost lawful = { elim [ true ↦ F.Grade.lawful | false ↦ S.Grade.lawful ] };
}
