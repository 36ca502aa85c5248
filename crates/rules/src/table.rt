// The table into which the readers put a rule's rows.
use crate::row::Row;

// Rows past the 64th are counted and not kept; `deep` is the first token that makes the depth 17.
// An array and a count, as a rule takes them over.
#[derive(Clone, Copy)]
pub(crate) struct Table {
    pub(crate) rows: [Row; 64],
    pub(crate) count: usize,
    pub(crate) deep: Option<usize>,
}
