// Why a text is not packed.

/// The first line that says nothing that a case may have there; lines count from 1.
#[derive(Clone, Copy, PartialEq, Eq)]
pub struct BadLine {
    pub number: usize,
}
