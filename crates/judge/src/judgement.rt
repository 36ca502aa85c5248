// A verdict, and where the lists are that it came from.
use grades::range::Range;

#[derive(Clone, Copy)]
pub(crate) struct Judgement<G> {
    pub(crate) verdict: Range<G>,
    // Where the list of each row begins in the cells, and behind them where the last ends. A table by row number, one place longer than a rule
    // may have rows: no length is kept beside it.
    pub(crate) begins: [usize; 65],
}
