// What a range is tried for. It has a name, since the clauses of want lists say which of the three is meant.
#[derive(Clone, Copy)]
pub(crate) enum Trial {
    // Its ends differ.
    Loose,
    // Its upper end is lowest, so it can be nothing else.
    Lowest,
    // Its upper end is not lowest.
    Higher,
}
