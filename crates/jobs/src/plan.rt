// Planning how a line's pieces change where a reading is set.
ghost use Rattle.std.specs.Prelude.{◌≡◌, ◌+◌, ◌<◌, ◌≤◌, length, take};
ghost use Rattle.pieces.specs.Pieces.{count_before, Canonical, Lists};
ghost use Rattle.jobs.specs.Edits.{Joins, FollowsPieces, set_on, edited};

use crate::edit::Edit;
use meaning::reading::Reading;
use pieces::list::PieceList;
use pieces::piece::Piece;

// A piece with the value, unless the same value stands before it: the two are joined then.
fn unless_same(start: u32, value: Reading, before: Reading) -> Option<Piece<Reading>>
    ensures { Joins start value before result }
{
    if before.same(value) {
        None
    } else {
        Some(Piece { start, value })
    }
}

// The piece behind the first `keep`.
fn following(
    pieces: &[Piece<Reading>],
    keep: usize,
    start: u32,
    value: Reading,
) -> Option<Piece<Reading>>
    requires { keep ≤ length pieces.now }
    ensures { FollowsPieces (take keep pieces.now) start value result }
{
    if keep == 0 {
        return Some(Piece { start, value });
    }
    unless_same(start, value, pieces[keep - 1].value)
}

// How many pieces start before the stretch, and how many at its end or before.
fn touched(line: &PieceList<'_, Reading>, from: u32, to: u32) -> (usize, usize)
    requires { from < to }
    ensures low { result.0 ≡ count_before from line.now.pieces.now }
    ensures high { result.1 ≡ count_before (to + 1) line.now.pieces.now }
    ensures order { (result.0 ≤ result.1) × (0 < result.1) × (result.1 ≤ length line.now.pieces.now) }
{
    (line.started_before(from as u64), line.started(to as u64))
}

// The pieces that start before the stretch stay, those that start in it or at its end go, and what was read at its end goes on from there.
pub(crate) fn plan(line: &PieceList<'_, Reading>, from: u32, to: u32, value: Reading) -> Edit
    requires canonical { Canonical line.now.pieces.now }
    requires order { from < to }
    ensures order { (result.keep ≤ result.skip) × (result.skip ≤ length line.now.pieces.now) }
    ensures lists { Lists (set_on line.now.pieces.now from to value) (edited line.now.pieces.now result) }
{
    let pieces = line.pieces;
    let (keep, skip) = touched(line, from, to);
    Edit {
        keep,
        first: following(pieces, keep, from, value),
        second: unless_same(to, pieces[skip - 1].value, value),
        skip,
    }
}
