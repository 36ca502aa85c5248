// Carrying out one call on a job.
ghost use Rattle.std.specs.Prelude.{◌≡◌, ◌≤◌, length};
ghost use Rattle.runs.specs.Runs.{Event};
ghost use Rattle.runs.specs.Law.{LawOfRuns};
ghost use Rattle.jobs.specs.Jobs.{state_of, cells_of, SameLoan};
ghost use Rattle.lent.specs.Holding.{counts, SameLoans};
ghost use Rattle.runs.specs.Families.{truth_and_margin};
ghost use Rattle.scripts.specs.Events.{marks_in};
ghost use Rattle.scripts.specs.Moments.{moment};
ghost use Rattle.scripts.specs.Plays.{Plays};

use crate::call::Call;
use crate::reply::Reply;
use crate::within::{judge_within, mark_within};
use grades::margin::Margin;
use grades::range::Range;
use grades::truth::Truth;
use jobs::job::Job;
use lent::cells::Cells;
use meaning::mark::Mark;
use pieces::piece::Piece;
use runs::family::Both;
use runs::law::runs_keep_the_law;

// Carries out one call, with cells for the row lists in truth and in margin, for the want lists, and for the marks.
fn play_on<'a>(
    job: &mut Job<'a>,
    call: &Call<'_>,
    truths: &mut [Piece<Range<Truth>>],
    margins: &mut [Piece<Range<Margin>>],
    wants: &mut [Piece<bool>],
    marks: &mut [Mark],
) -> Reply
    ensures plays { (e : Event truth_and_margin) × Plays call.now (record { state = state_of job.old; pieces = cells_of job.old; lent = record { truths = truths.old; margins = margins.old; wants = wants.old; marks = marks.old } }) result e (record { state = state_of job.new; pieces = cells_of job.new; lent = record { truths = truths.new; margins = margins.new; wants = wants.new; marks = marks.new } }) }
    ensures fits { marks_in result ≤ length marks.new }
    ensures loan { SameLoan job.old job.new }
{
    match *call {
        Call::Enter {
            line,
            from,
            to,
            lower,
            upper,
        } => Reply::Entered(job.enter(line, from, to, lower, upper)),
        Call::Known { line } => Reply::Known(job.known(line)),
        Call::Tally => Reply::Tally(job.tally()),
        Call::Seal => {
            job.seal();
            Reply::Sealed
        }
        Call::JudgeTruth { rule, tick, rows } => {
            Reply::JudgedTruth(judge_within(job, rule, tick, rows, truths))
        }
        Call::JudgeMargin { rule, tick, rows } => {
            Reply::JudgedMargin(judge_within(job, rule, tick, rows, margins))
        }
        Call::MarkTruth {
            rule,
            tick,
            portion,
        } => Reply::MarkedTruth(mark_within(job, rule, tick, portion, truths, wants, marks)),
        Call::MarkMargin {
            rule,
            tick,
            portion,
        } => Reply::MarkedMargin(mark_within(job, rule, tick, portion, margins, wants, marks)),
    }
}

/// Carries out one call. The call with its reply is a turn of the job, and the law of runs holds of every list of such turns.
pub fn play<'a>(job: &mut Job<'a>, call: &Call<'_>, cells: &mut Cells<'_>) -> Reply
    ensures plays { (e : Event truth_and_margin) × Plays call.now (moment job.old cells.old) result e (moment job.new cells.new) }
    ensures law { LawOfRuns truth_and_margin }
    ensures fits { marks_in result ≤ length cells.new.marks.now }
    ensures kept { counts cells.new ≡ counts cells.old }
    ensures loan { SameLoan job.old job.new }
    ensures loans { SameLoans cells.old cells.new }
{
    runs_keep_the_law::<Both<Truth, Margin>>();
    play_on(
        job,
        call,
        cells.truths,
        cells.margins,
        cells.wants,
        cells.marks,
    )
}
