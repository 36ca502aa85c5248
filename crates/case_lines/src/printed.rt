// What a field prints, as values.
use crate::line::Line;

// A line, and how many marks follow, which are the first so many of the mark cells.
#[derive(Clone, Copy)]
pub(crate) struct Printed {
    pub(crate) line: Line,
    pub(crate) marks: usize,
}
