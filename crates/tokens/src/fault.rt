// Why a text has no tokens.

#[derive(Clone, Copy, PartialEq, Eq)]
pub enum TokenFault {
    // The text has over 1,024 bytes.
    TooLong,
    // At this byte no token begins, or a malformed name or number does.
    Malformed { at: usize },
}
