// Signals: what gives a value at every tick, and tells how long it lasts.
ghost use Rattle.std.specs.Prelude.{ℕ, Option};
ghost use Rattle.pieces.specs.Views.{Agree};
ghost use Rattle.pieces.specs.Ticks.{Steady};
ghost use Rattle.pieces.specs.Pieces.{at_list, Found};

use crate::list::PieceList;
use crate::same::Same;

/// The places, from 0, of the pieces that a signal's last step found in the lists that it reads, two at most; with one list, `left`.
/// The next step looks there first. Any numbers do: no answer depends on them.
#[derive(Clone, Copy)]
pub struct Near {
    pub left: usize,
    pub right: usize,
}

/// A value at every tick, in milliseconds.
pub trait Signal<V: Same> {
    // What the values stand for: the members are its own, and a step says that they tell values apart as `same` does.
    ghost Value: { Type 0 };

    ghost value: { V → Value };

    ghost f: { Self → ℕ → Value };

    // Which value and next tick a step may answer at a tick, where a signal promises more than that the next tick is not too late.
    ghost may_answer: { Self → ℕ → V → Option ℕ → Type 0 } = { λ _ _ _ _. Unit {0} };

    /// The value at t, and a tick up to which it stays the same, or none if it stays for ever.
    fn step(&self, t: u32) -> (V, Option<u32>)
        ensures steady { Steady (f self.now) t (value result.0) result.1 }
        ensures agree { Agree V.Same.value value }
        ensures named { may_answer self.now t result.0 result.1 };

    /// The same, for steps that follow one another: near is where the last one looked, and is left where this one did.
    /// By itself it is `step`, and leaves near as it was.
    fn step_near(&self, t: u32, near: &mut Near) -> (V, Option<u32>)
        ensures steady { Steady (f self.now) t (value result.0) result.1 }
        ensures agree { Agree V.Same.value value }
        ensures named { may_answer self.now t result.0 result.1 }
    {
        self.step(t)
    }
}

impl<'a, V: Same> Signal<V> for PieceList<'a, V> {
    ghost Value = { V.Same.Value };

    ghost value = { V.Same.value };

    ghost f = { λ list t. V.Same.value (at_list list.pieces.now list.ok t) };

    ghost may_answer = { λ list t v next. Found list.pieces.now t v next };

    fn step(&self, t: u32) -> (V, Option<u32>) {
        self.lookup(t as u64)
    }
}
