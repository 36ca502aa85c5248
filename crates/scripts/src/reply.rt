// What a call is answered.
ghost use Rattle.std.specs.Prelude.{◌≡◌, take};
ghost use Rattle.scripts.specs.Events.{marks_in};

use grades::margin::Margin;
use grades::range::Range;
use grades::truth::Truth;
use jobs::fault::{EnterFault, NoSuchLine};
use judge::fault::{JudgeFault, MarkFault};
use judge::marking::Marking;
use lent::cells::Cells;
use meaning::mark::Mark;

/// The reply to a call, in the words of the crates that have the calls: a refusal is the fault that they give.
#[derive(Clone, Copy)]
pub enum Reply {
    Entered(Result<(), EnterFault>),
    /// The line's first tick of which nothing is known.
    Known(Result<u32, NoSuchLine>),
    /// How many entries were accepted.
    Tally(u32),
    Sealed,
    JudgedTruth(Result<Range<Truth>, JudgeFault>),
    JudgedMargin(Result<Range<Margin>, JudgeFault>),
    /// The marks are the first so many of the mark cells.
    MarkedTruth(Result<Marking<Truth>, MarkFault>),
    MarkedMargin(Result<Marking<Margin>, MarkFault>),
}

impl Reply {
    // How many marks it speaks of.
    fn count(&self) -> usize
        ensures { result ≡ marks_in self.now }
    {
        match *self {
            Reply::MarkedTruth(Ok(marking)) => marking.marks,
            Reply::MarkedMargin(Ok(marking)) => marking.marks,
            _ => 0,
        }
    }

    /// The marks that it speaks of, in the cells that the call left. Of cells that are too few for them, all.
    pub fn marks<'c>(&self, cells: &'c Cells<'_>) -> &'c [Mark]
        ensures { result.now ≡ take (marks_in self.now) cells.now.marks.now }
    {
        let count = self.count().min(cells.marks.len());
        &cells.marks[..count]
    }
}
