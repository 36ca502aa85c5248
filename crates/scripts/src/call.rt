// What may be asked of a job and of the judge.
use rules::rule::Rule;

/// How many of the lent cells a marking is given: for row lists, for want lists, and for marks. Where fewer are lent, it is given them all.
#[derive(Clone, Copy)]
pub struct Portion {
    pub rows: usize,
    pub wants: usize,
    pub marks: usize,
}

/// A call. A rule is judged or marked in truth or in margin, at a tick in milliseconds, with the first so many of the lent cells, or all where there are fewer.
#[derive(Clone, Copy)]
pub enum Call<'r> {
    /// The line reads `lower` to `upper` from tick `from` to the tick before `to`.
    Enter {
        line: u8,
        from: u32,
        to: u32,
        lower: i32,
        upper: i32,
    },
    Known {
        line: u8,
    },
    Tally,
    Seal,
    JudgeTruth {
        rule: &'r Rule,
        tick: u32,
        rows: usize,
    },
    JudgeMargin {
        rule: &'r Rule,
        tick: u32,
        rows: usize,
    },
    MarkTruth {
        rule: &'r Rule,
        tick: u32,
        portion: Portion,
    },
    MarkMargin {
        rule: &'r Rule,
        tick: u32,
        portion: Portion,
    },
}
