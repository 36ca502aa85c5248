// The marks of all rows of tests, in the order of rows.
ghost use Rattle.std.specs.Prelude.{ℕ, ◌-◌, ◌<◌, length};
ghost use Rattle.rules.specs.Rows.{row_at};
ghost use Rattle.judge.specs.Places.{ListStands};
ghost use Rattle.judge.specs.Children.{is_test, asks_at};
ghost use Rattle.judge.specs.Marks.{MarkedTest, MarkedRows};
ghost use Rattle.judge.specs.Markings.{WantsStand, MarksWritten};
ghost use Rattle.judge.specs.Judged.{JudgedStands};

use crate::judged::Judged;
use crate::lines::Lines;
use crate::lists::CellLists;
use crate::stretches::mark_row;
use crate::tried::Asking;
use grades::grade::Grade;
use meaning::mark::Mark;
use pieces::sweep::Full;
use rules::row::Row;

impl<'a, 'b, 'c, 'd, G: Grade, L: Lines> Judged<'a, 'b, 'c, 'd, G, L> {
    // The marks of the row number k, behind the first `used`: none, unless it is a test. Its want list is number `at`.
    fn mark_test(
        &self,
        row: Row,
        k: usize,
        at: usize,
        wants: CellLists<'_, '_, bool>,
        marks: &mut [Mark],
        used: usize,
    ) -> Result<usize, Full>
        requires ranges { ListStands self.now.ranges.begins.now self.now.ranges.cells.now k }
        requires wants { ListStands wants.begins.now wants.cells.now at }
        ensures { MarkedTest (is_test row) (asks_at G.Grade.kind G.Grade.value self.now.ranges.begins.now self.now.ranges.cells.now wants.entry.begins.now wants.entry.cells.now k at) self.now.limit k marks.old used marks.new result }
    {
        match row {
            Row::Test { .. } => {
                let want = wants.list(at);
                let range = self.ranges.list(k);
                mark_row(&Asking { want, range }, self.limit, k, marks, used)
            }
            _ => Ok(used),
        }
    }

    // The marks of all rows below the limit, by the lists of their ranges and of where they are wanted.
    fn mark_rows(&self, wants: CellLists<'_, '_, bool>, marks: &mut [Mark]) -> Result<usize, Full>
        requires ranges { (k : ℕ) → k < length self.now.rows.now → ListStands self.now.ranges.begins.now self.now.ranges.cells.now k }
        requires wants { (k : ℕ) → k < length self.now.rows.now → ListStands wants.begins.now wants.cells.now (length self.now.rows.now - 1 - k) }
        ensures { MarkedRows (λ k. is_test (row_at self.now.rows.now k)) (λ k. asks_at G.Grade.kind G.Grade.value self.now.ranges.begins.now self.now.ranges.cells.now wants.entry.begins.now wants.entry.cells.now k (length self.now.rows.now - 1 - k)) (λ k. self.now.limit) (length self.now.rows.now) marks.old marks.new result }
    {
        let mut used = 0;
        for (k, row) in self.rows.iter().enumerate() {
            used = self.mark_test(*row, k, self.rows.len() - 1 - k, wants, marks, used)?;
        }
        Ok(used)
    }

    // The marks, by the want lists of all rows.
    pub(crate) fn write_marks(
        &self,
        wants: CellLists<'_, '_, bool>,
        marks: &mut [Mark],
    ) -> Result<usize, Full>
        requires stands { JudgedStands G.Grade.kind G.Grade.value L.Lines.x self.now }
        requires wants { WantsStand G.Grade.kind self.now.rows.now (L.Lines.x self.now.lines.now) self.now.tick wants.begins.now wants.cells.now }
        ensures { MarksWritten G.Grade.kind self.now.rows.now (L.Lines.x self.now.lines.now) self.now.tick marks.old marks.new result }
    {
        self.mark_rows(wants, marks)
    }
}
