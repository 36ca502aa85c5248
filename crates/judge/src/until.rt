// One step of an until row, over the lists of its children.
ghost use Rattle.std.specs.Prelude.{◌≡◌, ◌+◌, ◌-◌, ◌≤◌};
ghost use Rattle.grades.specs.Ranges.{spans};
ghost use Rattle.grades.specs.Worth.{worth};
ghost use Rattle.pieces.specs.Ticks.{Steady};
ghost use Rattle.meaning.specs.Values.{over};
ghost use Rattle.judge.specs.Candidates.{EitherStarts, UntilCandidate, NeverOr};
ghost use Rattle.judge.specs.Signals.{goal, Stays};

use crate::look::{look, look_near};
use crate::steps::{Way, gather};
use grades::grade::Grade;
use grades::range::Range;
use pieces::list::PieceList;
use pieces::ticks::{first_of, moved_back};

// The upper, over the ticks u from first to end, of right at u with left at every tick from t to u;
// a tick up to which that stays at first, and one up to which it stays at end.
// One walk over the pieces of both lists, with the lower of left so far and the place in each list. The two stay two parameters, as a row has two children.
fn gather_until<G: Grade>(
    left: &PieceList<'_, Range<G>>,
    right: &PieceList<'_, Range<G>>,
    t: u64,
    first: u64,
    end: u64,
) -> (Range<G>, Option<u32>, Option<u32>)
    requires start { t ≤ first }
    requires window { first ≤ end }
    ensures all { worth G.kind G.value result.0 ≡ over (spans G.kind).join (goal G.kind G.value left.now.pieces.now right.now.pieces.now t) first (end - first) }
    ensures leaves { Stays (goal G.kind G.value left.now.pieces.now right.now.pieces.now t) first result.1 }
    ensures next { Stays (goal G.kind G.value left.now.pieces.now right.now.pieces.now t) end result.2 }
    ensures leaves_named { NeverOr (EitherStarts left.now.pieces.now right.now.pieces.now) result.1 }
    ensures next_named { NeverOr (EitherStarts left.now.pieces.now right.now.pieces.now) result.2 }
{
    let (run, more) = gather(Way::Lower, left, t, first);
    let (aim, after, mut near_right) = look_near(right, first, 0);
    let mut near_left = 0;
    let leaves = first_of(more, after);
    let mut low = run;
    let mut all = aim.lower(run);
    let mut next = leaves;
    while let Some(u) = next {
        if u as u64 > end {
            break;
        }
        let (here, m, place_left) = look_near(left, u as u64, near_left);
        let (aim, n, place_right) = look_near(right, u as u64, near_right);
        low = low.lower(here);
        let both = aim.lower(low);
        all = all.upper(both);
        next = first_of(m, n);
        near_left = place_left;
        near_right = place_right;
    }
    (all, leaves, next)
}

// As long as left does not change, an until is a window over what its goal was at t.
pub(crate) fn until_step<G: Grade>(
    left: &PieceList<'_, Range<G>>,
    right: &PieceList<'_, Range<G>>,
    from: u32,
    to: u32,
    t: u32,
) -> (Range<G>, Option<u32>)
    requires { from ≤ to }
    ensures steady { Steady (λ u. over (spans G.kind).join (goal G.kind G.value left.now.pieces.now right.now.pieces.now u) (u + from) (to - from)) t (worth G.kind G.value result.0) result.1 }
    ensures named { NeverOr (UntilCandidate left.now.pieces.now right.now.pieces.now from to) result.1 }
{
    let start = t as u64;
    let (_, changes) = look(left, start);
    let (all, leaves, next) = gather_until(
        left,
        right,
        start,
        start + from as u64,
        start + to as u64,
    );
    (
        all,
        first_of(
            changes,
            first_of(moved_back(leaves, from), moved_back(next, to)),
        ),
    )
}
