// Judging and marking at a tick.
ghost use Rattle.std.specs.Prelude.{◌≡◌, ℕ, ◌≤◌, length, IfOk};
ghost use Rattle.rules.specs.Texts.{table_of};
ghost use Rattle.jobs.specs.Jobs.{state_of};
ghost use Rattle.case_lines.specs.Calls.{told_text};
ghost use Rattle.lent.specs.Holding.{contents, counts, SameLoans};
ghost use Rattle.case_lines.specs.Listings.{Ticks};
ghost use Rattle.case_lines.specs.Leaves.{TickLeaves};

use grades::margin::Margin;
use grades::range::Range;
use grades::truth::Truth;
use jobs::job::Job;
use judge::fault::MarkFault;
use judge::judging::judge;
use judge::marking::mark;
use lent::cells::Cells;
use rules::rule::Rule;

// The verdict at a tick with its margin, and how many marks it has.
#[derive(Clone, Copy)]
pub(crate) struct Told {
    pub(crate) verdict: Range<Truth>,
    pub(crate) margin: Range<Margin>,
    // The marks are the first so many of the mark cells.
    pub(crate) marks: usize,
}

// Judges at the tick in truth and in margin, and marks; or the first that stands against it.
pub(crate) fn tell<'j>(
    cells: &mut Cells<'_>,
    job: &Job<'j>,
    rule: &Rule,
    tick: u32,
) -> Result<Told, MarkFault>
    ensures told { (k : ℕ) → Ticks (counts cells.old) (table_of rule.now) k tick (state_of job.now) (told_text k tick cells.new.marks.now result) }
    ensures fits { IfOk result (λ x. x.marks ≤ length cells.new.marks.now) }
    ensures kept { counts cells.new ≡ counts cells.old }
    ensures leaves { TickLeaves (table_of rule.now) (state_of job.now) tick (contents cells.old) (contents cells.new) }
    ensures loans { SameLoans cells.old cells.new }
{
    let verdict = judge(job, rule, tick, cells.truths)?;
    let margin = judge(job, rule, tick, cells.margins)?;
    let marking = mark(job, rule, tick, cells.truths, cells.wants, cells.marks)?;
    Ok(Told {
        verdict,
        margin,
        marks: marking.marks,
    })
}
