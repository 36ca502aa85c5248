// What holds of every piece list. Each function carries one law and does nothing.
ghost use Rattle.pieces.specs.Laws.{OnlyOne, Extends, NextChange, OneHolder};

use crate::same::Same;

/// A function of ticks has one list: equal starts, and values that stand for the same.
pub fn canonical_is_one<V: Same>()
    ensures { OnlyOne V.Same.Value }
{}

/// What stands in cells that are too few is the beginning of that one list.
pub fn short_cells_begin_it<V: Same>()
    ensures { Extends V.Same.Value }
{}

/// A look-up in that list tells the value and the tick where it next changes.
pub fn lookup_tells_change<V: Same>()
    ensures { NextChange V.Same.Value }
{}

/// Each tick is held by one piece of that list, the last that starts at the tick or before; the value there is that piece's, and it next changes where the piece behind it starts.
pub fn one_piece_holds_a_tick<V: Same>()
    ensures { OneHolder V.Same.Value }
{}
