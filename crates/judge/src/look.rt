// Look-ups in lists of ranges.
ghost use Rattle.grades.specs.Worth.{worth};
ghost use Rattle.pieces.specs.Ticks.{Steady};
ghost use Rattle.judge.specs.Candidates.{Starts, NeverOr};
ghost use Rattle.judge.specs.Signals.{heard};

use grades::grade::Grade;
use grades::range::Range;
use pieces::list::PieceList;

// The range at t, and the next start above t: a step of the function of ticks that the list stands for. A window may end behind the last u32.
pub(crate) fn look<G: Grade>(list: &PieceList<'_, Range<G>>, t: u64) -> (Range<G>, Option<u32>)
    ensures steady { Steady (heard G.kind G.value list.now.pieces.now) t (worth G.kind G.value result.0) result.1 }
    ensures named { NeverOr (Starts list.now.pieces.now) result.1 }
{
    list.lookup(t)
}

// The same in a walk, which passes on the place of the last piece. Nothing is asked of near: the answer is the same whatever it is.
pub(crate) fn look_near<G: Grade>(
    list: &PieceList<'_, Range<G>>,
    t: u64,
    near: usize,
) -> (Range<G>, Option<u32>, usize)
    ensures steady { Steady (heard G.kind G.value list.now.pieces.now) t (worth G.kind G.value result.0) result.1 }
    ensures named { NeverOr (Starts list.now.pieces.now) result.1 }
{
    list.lookup_near(t, near)
}
