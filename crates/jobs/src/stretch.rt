// Where an entry goes.

// The ticks of a line from one to the tick before another, as they are asked for: nothing is known of them yet.
#[derive(Clone, Copy)]
pub(crate) struct Stretch {
    pub(crate) line: usize,
    pub(crate) from: u32,
    pub(crate) to: u32,
}
