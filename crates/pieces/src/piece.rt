// A value from one tick on.

/// The value holds from the start (a tick, in milliseconds) up to the next piece's start, or for ever.
#[derive(Clone, Copy, PartialEq, Eq)]
pub struct Piece<V> {
    pub start: u32,
    pub value: V,
}
