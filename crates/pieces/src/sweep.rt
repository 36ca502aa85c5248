// The one sweep that writes a signal's list into cells.
ghost use Rattle.pieces.specs.Cells.{Written};

use crate::piece::Piece;
use crate::same::Same;
use crate::signal::{Near, Signal};

/// The cells do not suffice.
#[derive(Clone, Copy)]
pub struct Full;

/// Writes the signal's list into the cells from `used` on, and gives the first cell behind it. Where they are too few they hold the beginning of the list.
// A signal may name a next tick at which nothing changes: same values are joined.
// The cells are the caller's, so nothing is allocated, and places are counted.
pub fn sweep<V: Same, S: Signal<V>>(
    source: &S,
    cells: &mut [Piece<V>],
    used: usize,
) -> Result<usize, Full>
    ensures { Written S.Signal.value (S.Signal.f source.now) cells.old used cells.new result }
{
    if used >= cells.len() {
        return Err(Full);
    }
    // Tick 0 lies in the first piece of every list.
    let mut near = Near { left: 0, right: 0 };
    let (first, after) = source.step_near(0, &mut near);
    cells[used] = Piece {
        start: 0,
        value: first,
    };
    let mut end = used + 1;
    let mut last = first;
    let mut next = after;
    while let Some(t) = next {
        let (value, after) = source.step_near(t, &mut near);
        if !value.same(last) {
            if end >= cells.len() {
                return Err(Full);
            }
            cells[end] = Piece { start: t, value };
            end += 1;
            last = value;
        }
        next = after;
    }
    Ok(end)
}
