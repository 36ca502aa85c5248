// Where a row's child is wanted, at one tick and up to the next change.
// A step walks over the pieces of its signals, and each walk passes a piece once. No walk begins more than `to` ticks
// before t, and one that goes past t + to ends at most `to` ticks after the next tick that the step names. So a want
// list costs its changes times the pieces in a window, and not times the runs of asking ticks as well.
// Signals and window are parameters: a struct of them would be written out at each of its calls.
ghost use Rattle.std.specs.Prelude.{◌≡◌, ◌-◌, ◌<◌, ◌≤◌, true, false, ◌||◌};
ghost use Rattle.pieces.specs.Ticks.{Steady};
ghost use Rattle.judge.specs.Candidates.{NeverOr};
ghost use Rattle.judge.specs.WantCandidates.{FromOr, RightCandidate, LeftCandidate, AheadCandidate};
ghost use Rattle.judge.specs.Yes.{any, Clear};
ghost use Rattle.judge.specs.Reaches.{sees as sight, held_over as long_sight, Ahead};

use crate::ors::Or;
use crate::window::Window;
use crate::yes::{clear_from, clipped, first};
use crate::yesno::YesNo;
use pieces::ticks::first_of;

// The child of a connective or a window, or the right child of an until.
pub(crate) fn right_at<A: YesNo, B: YesNo>(
    asks: &A,
    dead: &B,
    window: Window,
    t: u32,
) -> (bool, Option<u32>)
    ensures steady { Steady (λ u. any (λ s. sight (A.YesNo.f asks.now) (B.YesNo.f dead.now) window.from window.to s u) window.limit) t result.0 result.1 }
    ensures named { NeverOr (RightCandidate (A.YesNo.may_change asks.now) (B.YesNo.may_change dead.now) window.from window.to window.limit) result.1 }
{
    let (gone, next) = dead.step(t);
    if gone {
        return (false, next);
    }
    let s = clear_from(dead, t.saturating_sub(window.to), t);
    let p = first(asks, true, s, window.limit.max(s));
    if p >= window.limit {
        return (false, None);
    }
    if t < p + window.from {
        return (false, Some(p + window.from));
    }
    let (_, after) = asks.step(p);
    let q = clipped(after, window.limit);
    let end = first(dead, true, t, q + window.to);
    (true, Some(end))
}

// Whether w, the first dead or needed tick from t on, is needed and at most `to` ticks after t.
fn ahead<B: YesNo, C: YesNo>(
    dead: &B,
    need: &C,
    to: u32,
    end: u32,
    w: u32,
    t: u32,
) -> (bool, Option<u32>)
    requires alive { B.YesNo.f dead.now t ≡ false }
    requires from { t ≤ w }
    requires before { w < end }
    requires here { (B.YesNo.f dead.now w || C.YesNo.f need.now w) ≡ true }
    ensures ahead { Ahead (B.YesNo.f dead.now) (C.YesNo.f need.now) to end w t result.0 result.1 }
    ensures named { NeverOr (AheadCandidate (B.YesNo.f dead.now) (B.YesNo.may_change dead.now) (C.YesNo.may_change need.now) to end w) result.1 }
{
    let (gone, dies) = dead.step(w);
    if gone {
        return (false, Some(w));
    }
    let soonest = w.saturating_sub(to);
    if t < soonest {
        return (false, Some(soonest));
    }
    let (_, ends) = need.step(w);
    let next = clipped(first_of(dies, ends), end);
    (true, Some(next))
}

// Tries each run of asking ticks from s up to t; dead and needed ticks were sought up to c, and the next run goes on from there.
fn held_from<A: YesNo, B: YesNo, C: YesNo>(
    asks: &A,
    dead: &B,
    need: &C,
    window: Window,
    s: u32,
    t: u32,
) -> (bool, Option<u32>)
    requires alive { B.YesNo.f dead.now t ≡ false }
    requires clear { Clear (B.YesNo.f dead.now) (t - window.to) t s }
    requires stop { FromOr (B.YesNo.may_change dead.now) (t - window.to) s }
    ensures steady { Steady (λ u. any (λ s. long_sight (A.YesNo.f asks.now) (B.YesNo.f dead.now) (C.YesNo.f need.now) window.from window.to s u) window.limit) t result.0 result.1 }
    ensures named { NeverOr (LeftCandidate (A.YesNo.may_change asks.now) (B.YesNo.may_change dead.now) window.from window.to window.limit (C.YesNo.may_change need.now)) result.1 }
{
    let limit = window.limit;
    let either = Or {
        one: dead,
        other: need,
    };
    let mut c = t;
    let mut p = first(asks, true, s, limit.max(s));
    // From run to run.
    while p < limit {
        if t < p {
            return (false, Some(p));
        }
        let (_, after) = asks.step(p);
        let q = clipped(after, limit);
        let end = q + window.to;
        let from = c.max(p + window.from);
        let z = first(dead, true, c, from);
        if z < from {
            return (false, Some(z));
        }
        c = first(&either, true, from, end);
        if c < end {
            return ahead(dead, need, window.to, end, c, t);
        }
        p = first(asks, true, q, limit);
    }
    (false, None)
}

// The left child of an until.
pub(crate) fn left_at<A: YesNo, B: YesNo, C: YesNo>(
    asks: &A,
    dead: &B,
    need: &C,
    window: Window,
    t: u32,
) -> (bool, Option<u32>)
    ensures steady { Steady (λ u. any (λ s. long_sight (A.YesNo.f asks.now) (B.YesNo.f dead.now) (C.YesNo.f need.now) window.from window.to s u) window.limit) t result.0 result.1 }
    ensures named { NeverOr (LeftCandidate (A.YesNo.may_change asks.now) (B.YesNo.may_change dead.now) window.from window.to window.limit (C.YesNo.may_change need.now)) result.1 }
{
    let (gone, next) = dead.step(t);
    if gone {
        return (false, next);
    }
    let s = clear_from(dead, t.saturating_sub(window.to), t);
    held_from(asks, dead, need, window, s, t)
}
