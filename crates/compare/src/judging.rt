// Judging, held against the reference.
ghost use Rattle.std.specs.Prelude.{◌≡◌, ℕ, ◌≤◌, length, Err, IfOk};
ghost use Rattle.grades.specs.Kinds.{Tells};
ghost use Rattle.rules.specs.Texts.{table_of};
ghost use Rattle.rules.specs.Tested.{Tests};
ghost use Rattle.jobs.specs.Jobs.{state_of};
ghost use Rattle.compare.specs.Questions.{QuestionBarred};
ghost use Rattle.compare.specs.Found.{JudgeAnswers, Needs, Verdict};

use crate::cells::{Measured, begin_alike, blank_from, blanks, ends_of, hold, written};
use crate::lists::row_list;
use crate::mismatch::{Mismatch, ensure};
use crate::question::Question;
use grades::range::Range;
use judge::fault::JudgeFault;
use judge::judging::judge;
use pieces::piece::Piece;
use reference::ends::Ends;
use reference::values::Values;
use rules::row::Row;

// Cells enough for the row lists of each rule that comes.
pub const ROW_CELLS: usize = 2048;

fn tests_from(row: Row, lines: usize) -> bool
    ensures { Tells result ((line : ℕ) × Tests row line × (lines ≤ line)) }
{
    matches!(row, Row::Test { line, .. } if line as usize >= lines)
}

impl Question<'_, '_> {
    pub(crate) fn judge<G: Measured>(
        &self,
        cells: &mut [Piece<Range<G>>],
    ) -> Result<Range<G>, JudgeFault>
        ensures { JudgeAnswers G.kind G.value (state_of self.now.job.now) (table_of self.now.rule.now) self.now.tick (length cells.old) result }
    {
        judge::<G>(self.job, self.rule, self.tick, cells)
    }

    // Judges with so many cells, where these are the whole lists: short cells hold their beginning.
    pub fn judge_in<G: Measured>(
        &self,
        whole: &[Piece<Range<G>>],
        room: usize,
    ) -> Result<(), Mismatch>
        ensures { IfOk result (λ u. Needs G.kind G.value (state_of self.now.job.now) (table_of self.now.rule.now) self.now.tick (length whole.now) room) }
    {
        let used = whole.len();
        let mut cells = blanks::<Piece<Range<G>>>(self.heap, room)?;
        let answer = self.judge::<G>(cells.as_mut_slice());
        let refusal = (room < used).then_some(JudgeFault::RowCells);
        let cells = cells.as_slice();
        ensure(answer.err() == refusal, Mismatch::Refusal)?;
        ensure(
            begin_alike(cells, whole, used.min(room)),
            Mismatch::Beginning,
        )?;
        ensure(blank_from(cells, used), Mismatch::Behind)
    }

    // The verdict, where all that is judged with room to spare, with just enough cells and with one less is as the reference has it.
    pub fn check_judge<G: Measured>(&self, values: &Values) -> Result<Ends, Mismatch>
        ensures { IfOk result (λ ends. Verdict G.kind G.value (state_of self.now.job.now) (table_of self.now.rule.now) self.now.tick G.number 2048 values.now ends) }
    {
        let mut cells = blanks::<Piece<Range<G>>>(self.heap, ROW_CELLS)?;
        let Ok(range) = self.judge::<G>(cells.as_mut_slice()) else {
            return Err(Mismatch::Refusal);
        };
        let verdict = ends_of(range);
        let cells = cells.as_slice();
        let whole = written(cells);
        let used = whole.len();
        let list = row_list(self.heap, self.rule.rows().len(), values)?;
        ensure(verdict == self.verdict(values), Mismatch::Verdict)?;
        ensure(hold(whole, list.as_slice()), Mismatch::RowLists)?;
        ensure(blank_from(cells, used), Mismatch::Behind)?;
        self.judge_in(whole, used)?;
        self.judge_in(whole, used.saturating_sub(1))?;
        Ok(verdict)
    }

    // Why a job of so many lines turns the question down whatever the cells, if it does.
    pub fn bar(&self, lines: usize) -> Option<JudgeFault>
        ensures { QuestionBarred (table_of self.now.rule.now) self.now.tick lines result }
    {
        if self.rule.rows().iter().any(|row| tests_from(*row, lines)) {
            Some(JudgeFault::NoSuchLine)
        } else if self.tick > 500_000_000 {
            Some(JudgeFault::LateTick)
        } else {
            None
        }
    }

    // A judgement that is turned down for another cause than the cells leaves them as they were.
    pub fn check_bar<G: Measured>(&self, fault: JudgeFault) -> Result<(), Mismatch>
        ensures { IfOk result (λ u. JudgeAnswers G.kind G.value (state_of self.now.job.now) (table_of self.now.rule.now) self.now.tick 8 (Err fault)) }
    {
        let mut cells = blanks::<Piece<Range<G>>>(self.heap, 8)?;
        let answer = self.judge::<G>(cells.as_mut_slice());
        ensure(answer.err() == Some(fault), Mismatch::Refusal)?;
        ensure(blank_from(cells.as_slice(), 0), Mismatch::Behind)
    }
}
