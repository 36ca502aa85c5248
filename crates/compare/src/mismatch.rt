// What a trial found to disagree.
ghost use Rattle.std.specs.Prelude.{◌≡◌, true, false, MatchResult};
ghost use Rattle.compare.specs.declared.mismatch.Mismatch.TheVariants.{Memory};

use std::alloc::AllocError;

#[derive(Clone, Copy, Debug)]
pub enum Mismatch {
    // No memory for the trial.
    Memory,
    // The text is read otherwise than it was written.
    Rule,
    // An entry is answered otherwise.
    Answer,
    // The job reads otherwise, or counts otherwise.
    Readings,
    // A refusal comes where none should, or another one.
    Refusal,
    Verdict,
    RowLists,
    WantLists,
    Marks,
    // Cells behind what is written were touched.
    Behind,
    // Short cells do not hold the beginning of the lists.
    Beginning,
    // A verdict after an entry is not inside the one before.
    Nested,
    // A verdict changed though no mark was touched.
    Untouched,
    // A verdict is not settled though all marked readings are exact.
    Settled,
}

impl From<AllocError> for Mismatch {
    ghost from_gives = { λ e r. r ≡ Memory };

    fn from(_error: AllocError) -> Mismatch {
        Mismatch::Memory
    }
}

// Nothing where the case is right, or else its mismatch.
pub fn ensure(right: bool, mismatch: Mismatch) -> Result<(), Mismatch>
    ensures { MatchResult result (λ u. right ≡ true) (λ m. (right ≡ false) × (m ≡ mismatch)) }
{
    if right { Ok(()) } else { Err(mismatch) }
}
