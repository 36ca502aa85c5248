// Piece lists over a slice that someone else holds.
ghost use Rattle.std.specs.Prelude.{◌≡◌, ◌+◌, ◌-◌, ◌≤◌, true, false, MatchOption, IsTrue, ◌↔◌};
ghost use Rattle.pieces.specs.Pieces.{ordered, at_list, count_before, Found, HoldsTick};
ghost use Rattle.pieces.specs.Ticks.{FirstTick};

use crate::piece::Piece;
use crate::same::Same;

/// The first piece starts at 0, the starts rise, and the last piece goes on for ever.
// Who knows that of some pieces puts them in without a walk over them.
#[derive(Drop)]
pub struct PieceList<'a, V> {
    pub pieces: &'a [Piece<V>],
    ghost ok: { ordered pieces.now ≡ true },
}

// Whether there is a first piece, at 0, and the starts rise.
fn is_ordered<V: Copy>(pieces: &[Piece<V>]) -> bool
    ensures { result ≡ ordered pieces.now }
{
    let [first, behind @ ..] = pieces else {
        return false;
    };
    if first.start != 0 {
        return false;
    }
    let mut last = 0;
    for piece in behind {
        if piece.start <= last {
            return false;
        }
        last = piece.start;
    }
    true
}

// Whether it is the piece at k that holds t.
fn holds<V: Copy>(pieces: &[Piece<V>], t: u64, k: usize) -> bool
    ensures { IsTrue result ↔ HoldsTick pieces.now t k }
{
    let count = pieces.len();
    k < count && pieces[k].start as u64 <= t && (k + 1 == count || t < pieces[k + 1].start as u64)
}

impl<'a, V: Copy> PieceList<'a, V> {
    /// Pieces that are out of order are no list.
    pub fn new(pieces: &'a [Piece<V>]) -> Option<PieceList<'a, V>>
        ensures { MatchOption result (ordered pieces.now ≡ false) (λ list. list.pieces.now ≡ pieces.now) }
    {
        if is_ordered(pieces) {
            Some(PieceList { pieces })
        } else {
            None
        }
    }

    /// How many pieces start at t or before: the last of them holds t.
    pub fn started(&self, t: u64) -> usize
        ensures count { result ≡ count_before (t + 1) self.now.pieces.now }
        ensures some { 1 ≤ result }
        ensures last { HoldsTick self.now.pieces.now t (result - 1) }
    {
        self.pieces.partition_point(|piece| piece.start as u64 <= t)
    }

    /// How many pieces start before t.
    pub fn started_before(&self, t: u64) -> usize
        ensures { result ≡ count_before t self.now.pieces.now }
    {
        if t == 0 {
            return 0;
        }
        self.started(t - 1)
    }

    // The place of the piece that holds t; it is often near or the one behind it.
    fn place_near(&self, t: u64, near: usize) -> usize
        ensures { HoldsTick self.now.pieces.now t result }
    {
        let pieces = self.pieces;
        let behind = near.saturating_add(1);
        if holds(pieces, t, near) {
            near
        } else if holds(pieces, t, behind) {
            behind
        } else {
            self.started(t) - 1
        }
    }

    /// The value at t, and the next start above t.
    pub fn lookup(&self, t: u64) -> (V, Option<u32>)
        ensures { Found self.now.pieces.now t result.0 result.1 }
    {
        let pieces = self.pieces;
        let count = self.started(t);
        let next = pieces.get(count).map(|piece| piece.start);
        (pieces[count - 1].value, next)
    }

    /// The same, with the place of the piece; it tries near and the place behind it before it searches.
    pub fn lookup_near(&self, t: u64, near: usize) -> (V, Option<u32>, usize)
        ensures found { Found self.now.pieces.now t result.0 result.1 }
        ensures place { HoldsTick self.now.pieces.now t result.2 }
    {
        let pieces = self.pieces;
        let at = self.place_near(t, near);
        let next = pieces.get(at + 1).map(|piece| piece.start);
        (pieces[at].value, next, at)
    }
}

impl<'a, V: Same> PieceList<'a, V> {
    /// The first tick at which the list has the value; none where it never has.
    pub fn first_tick(&self, value: V) -> Option<u32>
        ensures { FirstTick (λ t. V.Same.value (at_list self.now.pieces.now self.now.ok t)) (V.Same.value value) result }
    {
        for piece in self.pieces {
            if piece.value.same(value) {
                return Some(piece.start);
            }
        }
        None
    }
}
