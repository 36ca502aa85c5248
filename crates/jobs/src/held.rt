// What a job holds beside its cells, with no promise.

// The most lines that a job may have.
pub(crate) const MOST_LINES: usize = 16;

// How many cells each line has of its own, and so the most pieces that it may have.
pub(crate) const LINE_CELLS: usize = 64;

// The last tick at which an entry may end.
pub(crate) const LAST_END: u32 = 1_000_000_001;

// What a job notes of a line beside its cells.
#[derive(Clone, Copy)]
pub(crate) struct LineNote {
    // How many pieces it has.
    pub(crate) count: usize,
}

// The pieces of line k are the first `notes[k].count` of its cells, which begin at cell 64 * k.
// The notes are a table by line and no vector that fills: a job has its lines from the start.
// That it is sealed is a flag, since a call that borrows the job seals it in place.
// Methods here take the cells and ask for `HeldSound`, which a `Job` keeps: one that changes several fields in turn breaks it in between.
#[derive(Drop)]
pub(crate) struct Held {
    pub(crate) lines: usize,
    pub(crate) notes: [LineNote; MOST_LINES],
    pub(crate) tally: u32,
    pub(crate) sealed: bool,
}
