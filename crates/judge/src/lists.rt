// Piece lists that lie one behind the other in cells.
ghost use Rattle.std.specs.Prelude.{◌≡◌};
ghost use Rattle.judge.specs.Places.{list_at, ListStands};

use pieces::list::PieceList;
use pieces::piece::Piece;

// List k lies in the cells from `begins[k]` up to `begins[k + 1]`.
#[derive(Clone, Copy)]
pub(crate) struct CellLists<'a, 'b, V> {
    pub(crate) begins: &'a [usize],
    pub(crate) cells: &'b [Piece<V>],
}

impl<'a, 'b, V: Copy> CellLists<'a, 'b, V> {
    // List k, to be looked up.
    pub(crate) fn list(&self, k: usize) -> PieceList<'b, V>
        requires { ListStands self.now.begins.now self.now.cells.now k }
        ensures { result.pieces.now ≡ list_at self.now.begins.now self.now.cells.now k }
    {
        PieceList {
            pieces: &self.cells[self.begins[k]..self.begins[k + 1]],
        }
    }
}
