// Walks over a signal of yes and no.
ghost use Rattle.std.specs.Prelude.{◌≡◌, ◌<◌, ◌≤◌, false};
ghost use Rattle.judge.specs.WantCandidates.{FromOr};
ghost use Rattle.judge.specs.Yes.{FirstFrom, Clear, clip};

use crate::yesno::YesNo;

// The tick, or `end` where there is none before it.
pub(crate) fn clipped(next: Option<u32>, end: u32) -> u32
    ensures { result ≡ clip next end }
{
    next.unwrap_or(end).min(end)
}

// The first tick from `from` on at which the signal is `value`, or `end` where there is none before it.
pub(crate) fn first<S: YesNo>(source: &S, value: bool, from: u32, end: u32) -> u32
    requires { from ≤ end }
    ensures first { FirstFrom (S.YesNo.f source.now) value from end result }
    ensures stop { result < end → FromOr (S.YesNo.may_change source.now) from result }
{
    // From change to change, and not from tick to tick.
    let mut t = from;
    while t < end {
        let (here, next) = source.step(t);
        if here == value {
            return t;
        }
        t = clipped(next, end);
    }
    end
}

// The first tick from `from` on from which the signal is no up to u, which is not counted.
pub(crate) fn clear_from<S: YesNo>(source: &S, from: u32, u: u32) -> u32
    requires { from ≤ u }
    ensures clear { Clear (S.YesNo.f source.now) from u result }
    ensures stop { S.YesNo.f source.now u ≡ false → FromOr (S.YesNo.may_change source.now) from result }
{
    let mut s = from;
    // From change to change, and not from tick to tick.
    let mut t = from;
    while t < u {
        let (here, next) = source.step(t);
        t = clipped(next, u);
        if here {
            s = t;
        }
    }
    s
}
