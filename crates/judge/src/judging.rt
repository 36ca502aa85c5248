// Judging a rule on a job.
ghost use Rattle.std.specs.Prelude.{length};
ghost use Rattle.rules.specs.Texts.{table_of};
ghost use Rattle.runs.specs.States.{readings_of};
ghost use Rattle.runs.specs.Calls.{JudgeTurn};
ghost use Rattle.jobs.specs.Jobs.{state_of};
ghost use Rattle.judge.specs.Judges.{JudgedTable};
ghost use Rattle.judge.specs.Answers.{judge_reply, JudgeCells};

use crate::fault::JudgeFault;
use crate::judgement::Judgement;
use crate::table::judge_rows;
use grades::grade::Grade;
use grades::range::Range;
use jobs::job::Job;
use pieces::piece::Piece;
use rules::rule::Rule;

// The last tick at which a rule may be judged.
const LAST_TICK: u32 = 500_000_000;

// Judges a rule's table on the job, or says why not.
pub(crate) fn judge_table<'a, G: Grade>(
    job: &Job<'a>,
    rule: &Rule,
    tick: u32,
    cells: &mut [Piece<Range<G>>],
) -> Result<Judgement<G>, JudgeFault>
    ensures { JudgedTable G.Grade.kind G.Grade.value (state_of job.now) (table_of rule.now) tick cells.old cells.new result }
{
    if !rule.tests_only_below(job.lines()) {
        return Err(JudgeFault::NoSuchLine);
    }
    if tick > LAST_TICK {
        return Err(JudgeFault::LateTick);
    }
    let judgement = judge_rows(job, rule, tick, cells)?;
    Ok(judgement)
}

// The range of the rule's grade at the tick, by what the job reads. The cells then begin with the piece lists of all rows, in row order.
pub fn judge<'a, G: Grade>(
    job: &Job<'a>,
    rule: &Rule,
    tick: u32,
    cells: &mut [Piece<Range<G>>],
) -> Result<Range<G>, JudgeFault>
    ensures turn { JudgeTurn G.Grade.kind (state_of job.now) (table_of rule.now) tick (length cells.old) (judge_reply G.Grade.kind G.Grade.value result) }
    ensures cells { JudgeCells G.Grade.kind G.Grade.value (table_of rule.now) (readings_of (state_of job.now)) cells.old cells.new result }
{
    let judgement = judge_table(job, rule, tick, cells)?;
    Ok(judgement.verdict)
}
