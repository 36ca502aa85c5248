// Making an edit in place.
ghost use Rattle.std.specs.Prelude.{◌≡◌, ◌+◌, ◌≤◌, length};
ghost use Rattle.runs.specs.Bounds.{line_cells};
ghost use Rattle.jobs.specs.Lines.{cells_from};
ghost use Rattle.jobs.specs.Edits.{written, optional, edited, edited_size};

use crate::edit::Edit;
use meaning::reading::Reading;
use pieces::piece::Piece;

// How many cells the piece takes.
fn size(piece: Option<Piece<Reading>>) -> usize
    ensures is { result ≡ length (optional piece) }
    ensures small { result ≤ 1 }
{
    piece.is_some() as usize
}

// Writes the piece, if there is one, and gives the place behind it.
fn put(cells: &mut [Piece<Reading>], at: usize, piece: Option<Piece<Reading>>) -> usize
    requires { at + length (optional piece) ≤ length cells.old }
    ensures cells { cells.new ≡ written cells.old at (optional piece) }
    ensures next { result ≡ at + length (optional piece) }
{
    match piece {
        Some(p) => {
            cells[at] = p;
            at + 1
        }
        None => at,
    }
}

// How many pieces there are once the edit is made on `count` of them.
pub(crate) fn size_after(edit: Edit, count: usize) -> usize
    requires order { (edit.keep ≤ edit.skip) × (edit.skip ≤ count) }
    requires short { count ≤ line_cells }
    ensures { result ≡ edited_size edit count }
{
    edit.keep + size(edit.first) + size(edit.second) + (count - edit.skip)
}

// Makes the edit on the `count` pieces from cell `base` on.
pub(crate) fn splice(cells: &mut [Piece<Reading>], base: usize, count: usize, edit: Edit)
    requires order { (edit.keep ≤ edit.skip) × (edit.skip ≤ count) }
    requires before { base + count ≤ length cells.old }
    requires after { base + edited_size edit count ≤ length cells.old }
    ensures { cells.new ≡ written cells.old base (edited (cells_from cells.old base count) edit) }
{
    let at = base + edit.keep;
    let more = size(edit.first) + size(edit.second);
    cells.copy_within(base + edit.skip..base + count, at + more);
    let next = put(cells, at, edit.first);
    put(cells, next, edit.second);
}
