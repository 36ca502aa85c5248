// Judging a rule on a job, and marking what is to blame.
ghost use Rattle.std.specs.Prelude.{◌≡◌, length};
ghost use Rattle.rules.specs.Texts.{table_of};
ghost use Rattle.runs.specs.States.{readings_of};
ghost use Rattle.runs.specs.Calls.{MarkTurn};
ghost use Rattle.runs.specs.Law.{LawOfRuns};
ghost use Rattle.jobs.specs.Jobs.{state_of};
ghost use Rattle.judge.specs.Judged.{JudgedStands};
ghost use Rattle.judge.specs.Markings.{MarkedTable};
ghost use Rattle.judge.specs.Answers.{mark_reply, MarkedCells};

use crate::fault::MarkFault;
use crate::judged::Judged;
use crate::judging::judge_table;
use crate::lines::Lines;
use crate::lists::CellLists;
use grades::grade::Grade;
use grades::range::Range;
use jobs::job::Job;
use meaning::mark::Mark;
use pieces::piece::Piece;
use rules::rule::Rule;
use runs::family::Alone;
use runs::law::runs_keep_the_law;

// A verdict, and how many stretches are to blame for what is not settled.
#[derive(Clone, Copy)]
pub struct Marking<G> {
    pub verdict: Range<G>,
    // The marks are the first so many of the mark cells.
    pub marks: usize,
}

impl<'a, 'b, 'c, 'd, G: Grade, L: Lines> Judged<'a, 'b, 'c, 'd, G, L> {
    // Writes the want lists and the marks, and gives how many marks there are.
    fn mark(&self, wants: &mut [Piece<bool>], marks: &mut [Mark]) -> Result<usize, MarkFault>
        requires { JudgedStands G.Grade.kind G.Grade.value L.Lines.x self.now }
        ensures { MarkedTable G.Grade.kind self.now.rows.now (L.Lines.x self.now.lines.now) self.now.tick wants.old wants.new marks.old marks.new result }
    {
        let starts = self
            .write_wants(wants)
            .map_err(|_full| MarkFault::WantCells)?;
        let written = CellLists {
            begins: &starts,
            cells: wants,
        };
        self.write_marks(written, marks)
            .map_err(|_full| MarkFault::MarkCells)
    }
}

// Judges the rule, and lists the longest stretches of ticks at which a test is wanted and not settled. The row cells are those of judging;
// the want cells begin with each row's list of where it is wanted, from the last row to row 0, and the mark cells with the marks.
pub fn mark<'a, G: Grade>(
    job: &Job<'a>,
    rule: &Rule,
    tick: u32,
    cells: &mut [Piece<Range<G>>],
    wants: &mut [Piece<bool>],
    marks: &mut [Mark],
) -> Result<Marking<G>, MarkFault>
    ensures turn { MarkTurn G.Grade.kind (state_of job.now) (table_of rule.now) tick (length cells.old) (length wants.old) (length marks.old) (mark_reply G.Grade.kind G.Grade.value marks.new result) }
    ensures cells { MarkedCells G.Grade.kind G.Grade.value (table_of rule.now) (readings_of (state_of job.now)) tick cells.old cells.new wants.old wants.new marks.old marks.new result }
    ensures law { LawOfRuns (λ (n : Unit {0}). G.Grade.kind) }
{
    runs_keep_the_law::<Alone<G>>();
    let rows = rule.rows();
    let judgement = judge_table(job, rule, tick, cells)?;
    let judged = Judged {
        lines: job,
        rows,
        tick,
        limit: tick + rule.reach() + 1,
        ranges: CellLists {
            begins: &judgement.begins,
            cells,
        },
    };
    let count = judged.mark(wants, marks)?;
    Ok(Marking {
        verdict: judgement.verdict,
        marks: count,
    })
}
