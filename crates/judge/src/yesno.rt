// Yes and no over ticks.
ghost use Rattle.std.specs.Prelude.{ℕ, Bool};
ghost use Rattle.pieces.specs.Ticks.{Steady};
ghost use Rattle.judge.specs.Candidates.{NeverOr};

// What says yes or no at each tick, and up to when it stays so: the pair of a value and the next change that every look-up answers. It is a trait
// beside `Signal`, whose members may not name what the bound of its parameter brings, so only here can clauses speak of the yes itself.
pub(crate) trait YesNo {
    ghost f: { Self → ℕ → Bool };

    // The ticks at which it may change: those at which one of the lists that it reads does. A step names no other.
    ghost may_change: { Self → ℕ → Type 0 };

    fn step(&self, t: u32) -> (bool, Option<u32>)
        ensures steady { Steady (f self.now) t result.0 result.1 }
        ensures named { NeverOr (may_change self.now) result.1 };
}
