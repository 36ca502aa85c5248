// Carrying out a whole list of calls.
ghost use Rattle.std.specs.Prelude.{◌≡◌, List, length};
ghost use Rattle.runs.specs.Runs.{Event, Ran};
ghost use Rattle.runs.specs.States.{opened, line_count};
ghost use Rattle.runs.specs.Law.{LawOfRuns};
ghost use Rattle.jobs.specs.Jobs.{state_of, SameLoan};
ghost use Rattle.lent.specs.Holding.{contents, counts, SameLoans};
ghost use Rattle.runs.specs.Families.{truth_and_margin};
ghost use Rattle.scripts.specs.Moments.{Moment, moment, JustOpened};
ghost use Rattle.scripts.specs.Heard.{AllHeard};

use crate::call::Call;
use crate::listener::Listener;
use crate::playing::play;
use grades::margin::Margin;
use grades::truth::Truth;
use jobs::job::Job;
use lent::cells::Cells;
use meaning::reading::Reading;
use pieces::piece::Piece;
use runs::family::Both;
use runs::law::runs_keep_the_law;

/// A job on which calls were made, and whether the listener heard of all of them.
#[derive(Drop)]
pub struct Played<'a, E> {
    pub job: Job<'a>,
    pub outcome: Result<(), E>,
}

/// Carries out the calls in order on a job, and tells the listener of each as it is answered. Where the listener fails, the calls up to there
/// are carried out and no others, and the error is the listener's. On a job just opened that is a run of which the law of runs holds.
pub fn carry_out<'a, L: Listener>(
    job: &mut Job<'a>,
    calls: &[Call<'_>],
    cells: &mut Cells<'_>,
    listener: &mut L,
) -> Result<(), L::Error>
    ensures run { (es : List (Event truth_and_margin)) × (Ran truth_and_margin (state_of job.old) es (state_of job.new) × AllHeard L.hears calls.now (moment job.old cells.old) listener.old es (moment job.new cells.new) listener.new result) }
    ensures law { LawOfRuns truth_and_margin }
    ensures kept { counts cells.new ≡ counts cells.old }
    ensures loan { SameLoan job.old job.new }
    ensures loans { SameLoans cells.old cells.new }
{
    runs_keep_the_law::<Both<Truth, Margin>>();
    for call in calls {
        let reply = play(job, call, cells);
        listener.hear(call, &reply, cells)?;
    }
    Ok(())
}

/// Opens a job for so many lines over the pieces, and carries out the calls on it. The calls with their replies are a run, and the law of runs
/// holds of it. Who wants to say what the pieces hold once the job has ended opens it himself, and calls `carry_out`.
pub fn play_all<'a, L: Listener>(
    lines: usize,
    pieces: &'a mut [Piece<Reading>],
    calls: &[Call<'_>],
    cells: &mut Cells<'_>,
    listener: &mut L,
) -> Played<'a, L::Error>
    ensures run { (es : List (Event truth_and_margin)) × ((m : Moment) × (Ran truth_and_margin (opened (line_count lines (length pieces.old))) es (state_of result.job) × JustOpened lines pieces.old (contents cells.old) m × AllHeard L.hears calls.now m listener.old es (moment result.job cells.new) listener.new result.outcome)) }
    ensures law { LawOfRuns truth_and_margin }
    ensures kept { counts cells.new ≡ counts cells.old }
    ensures loan { result.job.cells.ghost_name ≡ pieces.entry.ghost_name }
    ensures loans { SameLoans cells.old cells.new }
{
    let mut job = Job::open(lines, pieces);
    let outcome = carry_out(&mut job, calls, cells, listener);
    Played { job, outcome }
}
