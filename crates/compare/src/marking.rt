// Marking, held against the reference.
ghost use Rattle.std.specs.Prelude.{◌≡◌, ◌-◌, length, IfOk};
ghost use Rattle.rules.specs.Texts.{table_of};
ghost use Rattle.jobs.specs.Jobs.{state_of};
ghost use Rattle.reference.specs.Tables.{value_at};
ghost use Rattle.compare.specs.Rooms.{written_marks};
ghost use Rattle.compare.specs.Found.{NeedsRoom, SameMarking};

use crate::cells::{Measured, ends_of, hold, written};
use crate::judging::ROW_CELLS;
use crate::lent::{Lent, Room};
use crate::lists::{mark_list, row_list, want_list};
use crate::mismatch::{Mismatch, ensure};
use crate::question::Question;
use meaning::mark::Mark;
use reference::ends::Ends;
use reference::values::Values;
use reference::wants::{WANT_TICKS, Wants};

// Cells enough for each rule that comes.
pub const AMPLE: Room = Room {
    rows: ROW_CELLS,
    wants: 4096,
    marks: 1024,
};

// A marking with room to spare: its cells, and its verdict.
#[derive(Drop)]
pub struct Whole<G: Drop> {
    pub lent: Lent<G>,
    pub used: Room,
    pub verdict: Ends,
}

impl<G: Measured> Whole<G> {
    // The marks that were written.
    pub fn marks(&self) -> &[Mark]
        ensures { result.now ≡ written_marks self.now.lent.marks.items }
    {
        written(self.lent.marks.as_slice())
    }
}

impl Question<'_, '_> {
    // Marks with so many cells.
    pub fn mark_in<G: Measured>(&self, whole: &Whole<G>, room: Room) -> Result<(), Mismatch>
        ensures { IfOk result (λ u. NeedsRoom G.kind G.value (state_of self.now.job.now) (table_of self.now.rule.now) self.now.tick whole.now.used room) }
    {
        let mut lent = Lent::<G>::blank(self.heap, room)?;
        let answer = lent.mark(self);
        let refusal = room.refusal(whole.used);
        let filled = room.filled(whole.used);
        ensure(answer.err() == refusal, Mismatch::Refusal)?;
        ensure(lent.begins(&whole.lent, filled), Mismatch::Beginning)?;
        ensure(lent.blank_behind(filled), Mismatch::Behind)
    }

    // Holds the wants and marks in the cells against the reference, if the rule looks no further than it does.
    fn compare_wants<G: Measured>(
        &self,
        whole: &Whole<G>,
        values: &Values,
    ) -> Result<(), Mismatch> {
        if (self.tick as u64).saturating_add(self.rule.reach() as u64) >= WANT_TICKS as u64 - 1 {
            return Ok(());
        }
        let rows = self.rule.rows();
        let wants = Wants::of::<G::Scale>(rows, values, self.tick as usize);
        let want_list = want_list(self.heap, rows.len(), &wants)?;
        let mark_list = mark_list(self.heap, rows, values, &wants)?;
        let written_wants = written(whole.lent.wants.as_slice());
        ensure(
            hold(written_wants, want_list.as_slice()),
            Mismatch::WantLists,
        )?;
        ensure(hold(whole.marks(), mark_list.as_slice()), Mismatch::Marks)
    }

    // Holds a marking with room to spare, of so many marks, against the reference.
    fn compare_marking<G: Measured>(
        &self,
        whole: &Whole<G>,
        marks: usize,
        values: &Values,
    ) -> Result<(), Mismatch>
        ensures verdict { IfOk result (λ u. whole.now.verdict ≡ value_at values.now (length (table_of self.now.rule.now) - 1) self.now.tick) }
        ensures marks { IfOk result (λ u. marks ≡ whole.now.used.marks) }
    {
        let list = row_list(self.heap, self.rule.rows().len(), values)?;
        let written_rows = written(whole.lent.rows.as_slice());
        ensure(whole.verdict == self.verdict(values), Mismatch::Verdict)?;
        ensure(marks == whole.used.marks, Mismatch::Marks)?;
        ensure(hold(written_rows, list.as_slice()), Mismatch::RowLists)?;
        ensure(whole.lent.blank_behind(whole.used), Mismatch::Behind)?;
        self.compare_wants(whole, values)
    }

    // The marking, where all that is marked with room to spare, with just enough cells and with one less of each kind is as the reference has it.
    pub fn check_mark<G: Measured>(&self, values: &Values) -> Result<Whole<G>, Mismatch>
        ensures { IfOk result (λ whole. SameMarking G.kind G.value (state_of self.now.job.now) (table_of self.now.rule.now) self.now.tick G.number (record { rows = 2048; wants = 4096; marks = 1024 }) values.now whole.verdict whole.lent.marks.items whole.used.marks) }
    {
        let mut lent = Lent::<G>::blank(self.heap, AMPLE)?;
        let Ok(marking) = lent.mark(self) else {
            return Err(Mismatch::Refusal);
        };
        let used = lent.used();
        let whole = Whole {
            lent,
            used,
            verdict: ends_of(marking.verdict),
        };
        self.compare_marking(&whole, marking.marks, values)?;
        for room in used.tight() {
            self.mark_in(&whole, room)?;
        }
        Ok(whole)
    }
}
