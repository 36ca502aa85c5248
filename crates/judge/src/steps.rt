// One step of each kind of row but until, over the lists of its children.
ghost use Rattle.std.specs.Prelude.{◌≡◌, ◌+◌, ◌-◌, ◌≤◌};
ghost use Rattle.grades.specs.Ranges.{spans};
ghost use Rattle.grades.specs.Worth.{worth};
ghost use Rattle.pieces.specs.Ticks.{Steady};
ghost use Rattle.meaning.specs.Values.{over};
ghost use Rattle.judge.specs.Candidates.{Starts, EitherStarts, AtEnds, NeverOr};
ghost use Rattle.judge.specs.Signals.{heard, op, Stays};

use crate::look::{look, look_near};
use grades::grade::Grade;
use grades::range::Range;
use pieces::list::PieceList;
use pieces::signal::Near;
use pieces::ticks::{first_of, moved_back};

// Which of two ranges is kept. It has a name of its own, since the clauses of a window say which of the two is meant.
#[derive(Clone, Copy)]
pub(crate) enum Way {
    Upper,
    Lower,
}

// The upper or the lower of the two.
fn combine<G: Grade>(way: Way, one: Range<G>, other: Range<G>) -> Range<G>
    ensures { worth G.kind G.value result ≡ op G.kind way (worth G.kind G.value one) (worth G.kind G.value other) }
{
    match way {
        Way::Upper => one.upper(other),
        Way::Lower => one.lower(other),
    }
}

// The child's opposite, as long as the child stays. It looks first near the place where the last step looked, and leaves there where this one did.
pub(crate) fn not_step<G: Grade>(
    child: &PieceList<'_, Range<G>>,
    t: u32,
    near: &mut usize,
) -> (Range<G>, Option<u32>)
    ensures steady { Steady (λ u. (spans G.kind).opposite (heard G.kind G.value child.now.pieces.now u)) t (worth G.kind G.value result.0) result.1 }
    ensures named { NeverOr (Starts child.now.pieces.now) result.1 }
{
    let (range, next, place) = look_near(child, t as u64, *near);
    *near = place;
    (range.opposite(), next)
}

// The two children made one, as long as both stay. It looks first near the places where the last step looked, and leaves there where this one did.
pub(crate) fn pair_step<G: Grade>(
    way: Way,
    left: &PieceList<'_, Range<G>>,
    right: &PieceList<'_, Range<G>>,
    t: u32,
    near: &mut Near,
) -> (Range<G>, Option<u32>)
    ensures steady { Steady (λ u. op G.kind way (heard G.kind G.value left.now.pieces.now u) (heard G.kind G.value right.now.pieces.now u)) t (worth G.kind G.value result.0) result.1 }
    ensures named { NeverOr (EitherStarts left.now.pieces.now right.now.pieces.now) result.1 }
{
    let (one, m, place_left) = look_near(left, t as u64, near.left);
    let (other, n, place_right) = look_near(right, t as u64, near.right);
    near.left = place_left;
    near.right = place_right;
    (combine(way, one, other), first_of(m, n))
}

// All ranges from the tick first to the tick end made one, piece by piece, and the next change after end.
pub(crate) fn gather<G: Grade>(
    way: Way,
    child: &PieceList<'_, Range<G>>,
    first: u64,
    end: u64,
) -> (Range<G>, Option<u32>)
    requires { first ≤ end }
    ensures all { worth G.kind G.value result.0 ≡ over (op G.kind way) (heard G.kind G.value child.now.pieces.now) first (end - first) }
    ensures next { Stays (heard G.kind G.value child.now.pieces.now) end result.1 }
    ensures named { NeverOr (Starts child.now.pieces.now) result.1 }
{
    let (range, after, mut near) = look_near(child, first, 0);
    let mut all = range;
    let mut next = after;
    while let Some(u) = next {
        if u as u64 > end {
            break;
        }
        let (range, after, place) = look_near(child, u as u64, near);
        all = combine(way, all, range);
        next = after;
        near = place;
    }
    (all, next)
}

// A window changes no sooner than a piece leaves it at its start or another comes in at its end.
pub(crate) fn window_step<G: Grade>(
    way: Way,
    child: &PieceList<'_, Range<G>>,
    from: u32,
    to: u32,
    t: u32,
) -> (Range<G>, Option<u32>)
    requires { from ≤ to }
    ensures steady { Steady (λ u. over (op G.kind way) (heard G.kind G.value child.now.pieces.now) (u + from) (to - from)) t (worth G.kind G.value result.0) result.1 }
    ensures named { NeverOr (AtEnds (Starts child.now.pieces.now) from to) result.1 }
{
    let first = t as u64 + from as u64;
    let end = t as u64 + to as u64;
    let (_, leaves) = look(child, first);
    let (all, next) = gather(way, child, first, end);
    (
        all,
        first_of(moved_back(leaves, from), moved_back(next, to)),
    )
}
