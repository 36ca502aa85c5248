// Where all rows are wanted, from the last row to row 0.
ghost use Rattle.std.specs.Prelude.{◌<◌, ◌≤◌, length, take};
ghost use Rattle.judge.specs.Markings.{WantsKnown, WantWritten, WantsWritten};
ghost use Rattle.judge.specs.Judged.{JudgedStands};

use crate::judged::Judged;
use crate::lines::Lines;
use crate::lists::CellLists;
use crate::want_signals::{ChildRow, LastRow};
use grades::grade::Grade;
use pieces::piece::Piece;
use pieces::sweep::{Full, sweep};
use rules::parents::parent_in;

impl<'a, 'b, 'c, 'd, G: Grade, L: Lines> Judged<'a, 'b, 'c, 'd, G, L> {
    // The want list of the row that has i rows behind it, whose own lists are done: the last row is wanted at the tick alone, and any other
    // where its parent wants it. Fills the cells, or says where the list ends in them.
    fn write_want(
        &self,
        i: usize,
        done: CellLists<'_, '_, bool>,
        rest: &mut [Piece<bool>],
    ) -> Result<usize, Full>
        requires stands { JudgedStands G.Grade.kind G.Grade.value L.Lines.x self.now }
        requires there { i < length self.now.rows.now }
        requires known { WantsKnown G.Grade.kind self.now.rows.now (L.Lines.x self.now.lines.now) self.now.tick i done.begins.now done.cells.now }
        ensures { WantWritten G.Grade.kind self.now.rows.now (L.Lines.x self.now.lines.now) self.now.tick i rest.old 0 rest.new result }
    {
        if i == 0 {
            return sweep(&LastRow { tick: self.tick }, rest, 0);
        }
        let last = self.rows.len() - 1;
        let child = last - i;
        // Each row but the last has a parent.
        let number = parent_in(self.rows, child).unwrap();
        let signal = ChildRow {
            row: self.rows[number],
            number,
            child,
            limit: self.limit,
            ranges: self.ranges,
            want: done.list(last - number),
        };
        sweep(&signal, rest, 0)
    }

    // The same behind the first `used` cells, in which the lists of the rows behind it lie.
    fn add_want(
        &self,
        i: usize,
        starts: &[usize],
        wants: &mut [Piece<bool>],
        used: usize,
    ) -> Result<usize, Full>
        requires stands { JudgedStands G.Grade.kind G.Grade.value L.Lines.x self.now }
        requires there { i < length self.now.rows.now }
        requires within { used ≤ length wants.old }
        requires known { WantsKnown G.Grade.kind self.now.rows.now (L.Lines.x self.now.lines.now) self.now.tick i starts.now (take used wants.old) }
        ensures { WantWritten G.Grade.kind self.now.rows.now (L.Lines.x self.now.lines.now) self.now.tick i wants.old used wants.new result }
    {
        let (cells, rest) = wants.split_at_mut(used);
        let done = CellLists {
            begins: starts,
            cells,
        };
        let written = self.write_want(i, done, rest)?;
        Ok(used + written)
    }

    // Writes the want lists of all rows, from the last to row 0, and gives where each begins and the last ends.
    pub(crate) fn write_wants(&self, wants: &mut [Piece<bool>]) -> Result<[usize; 65], Full>
        requires { JudgedStands G.Grade.kind G.Grade.value L.Lines.x self.now }
        ensures { WantsWritten G.Grade.kind self.now.rows.now (L.Lines.x self.now.lines.now) self.now.tick wants.old wants.new result }
    {
        let mut starts = [0usize; 65];
        let mut used = 0;
        // The number of rows behind is what counts here: no row is looked at by it.
        for i in 0..self.rows.len() {
            used = self.add_want(i, &starts, wants, used)?;
            starts[i + 1] = used;
        }
        Ok(starts)
    }
}
