// Where a verdict waits for readings.

// A stretch of ticks of a test row: its first tick, and the tick after its last.
#[derive(Clone, Copy, PartialEq, Eq)]
pub struct Mark {
    pub row: usize,
    pub first: u32,
    pub after: u32,
}
