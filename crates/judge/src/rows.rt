// A row's list, from the lists of its children.
ghost use Rattle.std.specs.Prelude.{◌≤◌, length, take};
ghost use Rattle.grades.specs.Ranges.{Span};
ghost use Rattle.grades.specs.Worth.{worth};
ghost use Rattle.pieces.specs.Ticks.{Steady};
ghost use Rattle.pieces.specs.Cells.{Written};
ghost use Rattle.meaning.specs.Values.{step as row_value};
ghost use Rattle.meaning.specs.Verdicts.{ranges};
ghost use Rattle.pieces.specs.Views.{Agree};
ghost use Rattle.judge.specs.Candidates.{RowCandidate};
ghost use Rattle.judge.specs.Places.{list_at, list_says, RowReady, RowReady_prop};

use crate::limits::tested;
use crate::lines::Lines;
use crate::lists::CellLists;
use crate::steps::{Way, not_step, pair_step, window_step};
use crate::until::until_step;
use grades::grade::Grade;
use grades::range::Range;
use pieces::piece::Piece;
use pieces::signal::{Near, Signal};
use pieces::sweep::{Full, sweep};
use rules::row::Row;

// One step of a row, over the lists of the rows before it. Not, and, or look first where the last step looked; a test reads its line, and the walks
// of a window begin anew at each step.
fn row_step<G: Grade, L: Lines>(
    row: Row,
    done: CellLists<'_, '_, Range<G>>,
    lines: &L,
    t: u32,
    near: &mut Near,
) -> (Range<G>, Option<u32>)
    requires { RowReady row done.begins.now done.cells.now }
    ensures steady { Steady (row_value (ranges G.Grade.kind) (L.Lines.x lines.now) (list_says G.Grade.kind G.Grade.value done.entry.begins.now done.entry.cells.now) row) t (worth G.Grade.kind G.Grade.value result.0) result.1 }
    ensures named { RowCandidate (L.Lines.x lines.now) (λ c. list_at done.entry.begins.now done.entry.cells.now c) row t result.1 }
{
    match row {
        Row::Test { line, side, limit } => {
            let (reading, next) = lines.read(line, t);
            (tested(side, limit, reading), next)
        }
        Row::Not { child } => not_step(&done.list(child), t, &mut near.left),
        Row::And { left, right } => {
            let left = done.list(left);
            let right = done.list(right);
            pair_step(Way::Lower, &left, &right, t, near)
        }
        Row::Or { left, right } => {
            let left = done.list(left);
            let right = done.list(right);
            pair_step(Way::Upper, &left, &right, t, near)
        }
        Row::Eventually { from, to, child } => {
            let child = done.list(child);
            window_step(Way::Upper, &child, from, to, t)
        }
        Row::Always { from, to, child } => {
            let child = done.list(child);
            window_step(Way::Lower, &child, from, to, t)
        }
        Row::Until {
            from,
            to,
            left,
            right,
        } => {
            let left = done.list(left);
            let right = done.list(right);
            until_step(&left, &right, from, to, t)
        }
    }
}

// A row as a signal, over the lists of the rows before it.
#[derive(Drop)]
struct RowSignal<'a, 'b, 'c, G, L> {
    row: Row,
    done: CellLists<'a, 'b, Range<G>>,
    lines: &'c L,
    ghost ready: { RowReady row done.begins.now done.cells.now } by { RowReady_prop row done.begins.now done.cells.now },
}

impl<'a, 'b, 'c, G: Grade, L: Lines> Signal<Range<G>> for RowSignal<'a, 'b, 'c, G, L> {
    ghost Value = { Span G.Grade.kind.Value };

    ghost value = { worth G.Grade.kind G.Grade.value };

    ghost f = { λ s. row_value (ranges G.Grade.kind) (L.Lines.x s.lines.now) (list_says G.Grade.kind G.Grade.value s.done.begins.now s.done.cells.now) s.row };

    ghost may_answer = { λ s t v next. RowCandidate (L.Lines.x s.lines.now) (λ c. list_at s.done.begins.now s.done.cells.now c) s.row t next };

    fn step(&self, t: u32) -> (Range<G>, Option<u32>)
        ensures steady { Steady (row_value (ranges G.Grade.kind) (L.Lines.x self.now.lines.now) (list_says G.Grade.kind G.Grade.value self.now.done.begins.now self.now.done.cells.now) self.now.row) t (worth G.Grade.kind G.Grade.value result.0) result.1 }
        ensures agree { Agree (worth G.Grade.kind G.Grade.value) (worth G.Grade.kind G.Grade.value) }
        ensures named { RowCandidate (L.Lines.x self.now.lines.now) (λ c. list_at self.now.done.begins.now self.now.done.cells.now c) self.now.row t result.1 }
    {
        let mut near = Near { left: 0, right: 0 };
        self.step_near(t, &mut near)
    }

    fn step_near(&self, t: u32, near: &mut Near) -> (Range<G>, Option<u32>) {
        row_step(self.row, self.done, self.lines, t, near)
    }
}

// Writes the list of a row behind the first `used` cells.
pub(crate) fn write_row<G: Grade, L: Lines>(
    row: Row,
    begins: &[usize],
    lines: &L,
    cells: &mut [Piece<Range<G>>],
    used: usize,
) -> Result<usize, Full>
    requires within { used ≤ length cells.old }
    requires ready { RowReady row begins.now (take used cells.old) }
    ensures { Written (worth G.Grade.kind G.Grade.value) (row_value (ranges G.Grade.kind) (L.Lines.x lines.now) (list_says G.Grade.kind G.Grade.value begins.now (take used cells.old)) row) cells.old used cells.new result }
{
    let (cells, rest) = cells.split_at_mut(used);
    let done = CellLists { begins, cells };
    let signal = RowSignal { row, done, lines };
    let written = sweep(&signal, rest, 0)?;
    Ok(used + written)
}
