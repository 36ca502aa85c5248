// Judging and marking with the first of the lent cells.
ghost use Rattle.std.specs.Prelude.{◌≤◌, min, length, IfOk};
ghost use Rattle.rules.specs.Rows.{Sound};
ghost use Rattle.rules.specs.Texts.{table_of};
ghost use Rattle.runs.specs.Calls.{JudgeTurn, MarkTurn};
ghost use Rattle.jobs.specs.Jobs.{state_of};
ghost use Rattle.judge.specs.Answers.{judge_reply, mark_reply};
ghost use Rattle.scripts.specs.Leavings.{JudgeLeaves, MarkLeaves};

use crate::call::Portion;
use grades::grade::Grade;
use grades::range::Range;
use jobs::job::Job;
use judge::fault::{JudgeFault, MarkFault};
use judge::judging::judge;
use judge::marking::{Marking, mark};
use meaning::mark::Mark;
use pieces::piece::Piece;
use rules::rule::Rule;

// Judges with at most so many of the row cells.
pub(crate) fn judge_within<'a, G: Grade>(
    job: &Job<'a>,
    rule: &Rule,
    tick: u32,
    rows: usize,
    cells: &mut [Piece<Range<G>>],
) -> Result<Range<G>, JudgeFault>
    ensures turn { JudgeTurn G.Grade.kind (state_of job.now) (table_of rule.now) tick (min rows (length cells.old)) (judge_reply G.Grade.kind G.Grade.value result) }
    ensures leaves { JudgeLeaves G.Grade.kind G.Grade.value (table_of rule.now) (state_of job.now) rows cells.old cells.new result }
    ensures sound { Sound (table_of rule.now) }
{
    // What is asked here is that a rule's rows are sound.
    let _rows = rule.rows();
    let count = rows.min(cells.len());
    judge(job, rule, tick, &mut cells[..count])
}

// Marks with at most so many of the cells of each sort.
pub(crate) fn mark_within<'a, G: Grade>(
    job: &Job<'a>,
    rule: &Rule,
    tick: u32,
    portion: Portion,
    cells: &mut [Piece<Range<G>>],
    wants: &mut [Piece<bool>],
    marks: &mut [Mark],
) -> Result<Marking<G>, MarkFault>
    ensures turn { MarkTurn G.Grade.kind (state_of job.now) (table_of rule.now) tick (min portion.rows (length cells.old)) (min portion.wants (length wants.old)) (min portion.marks (length marks.old)) (mark_reply G.Grade.kind G.Grade.value marks.new result) }
    ensures leaves { MarkLeaves G.Grade.kind G.Grade.value (table_of rule.now) (state_of job.now) tick portion cells.old cells.new wants.old wants.new marks.old marks.new result }
    ensures sound { Sound (table_of rule.now) }
    ensures fits { IfOk result (λ m. m.marks ≤ length marks.new) }
{
    // What is asked here is that a rule's rows are sound.
    let _rows = rule.rows();
    let row_count = portion.rows.min(cells.len());
    let want_count = portion.wants.min(wants.len());
    let mark_count = portion.marks.min(marks.len());
    mark(
        job,
        rule,
        tick,
        &mut cells[..row_count],
        &mut wants[..want_count],
        &mut marks[..mark_count],
    )
}
