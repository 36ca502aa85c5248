// A table that was judged, as marking goes by it.
// What holds of it, `JudgedStands`, is asked by its methods and is no ghost field: part of it is the lists that stand in the cells, and a ghost
// field has to have one proof at most.
use crate::lists::CellLists;
use grades::range::Range;
use rules::row::Row;

#[derive(Drop)]
pub(crate) struct Judged<'a, 'b, 'c, 'd, G, L> {
    // Where the readings came from.
    pub(crate) lines: &'a L,
    pub(crate) rows: &'b [Row],
    pub(crate) tick: u32,
    // No row is wanted from this tick on.
    pub(crate) limit: u32,
    // The lists of all rows, in row order.
    pub(crate) ranges: CellLists<'c, 'd, Range<G>>,
}
