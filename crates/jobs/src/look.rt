// Looking into a line's pieces.
ghost use Rattle.std.specs.Prelude.{◌≡◌, ℕ, ◌<◌, ◌≤◌, Some};
ghost use Rattle.grades.specs.Kinds.{Tells};
ghost use Rattle.pieces.specs.Ticks.{FirstTick};
ghost use Rattle.meaning.specs.Readings.{widest, Within};
ghost use Rattle.runs.specs.States.{reading_at};
ghost use Rattle.jobs.specs.Lines.{held_pieces};
ghost use Rattle.jobs.specs.Holds.{Kept, HeldSound};

use crate::held::{Held, LINE_CELLS};
use meaning::reading::Reading;
use pieces::list::PieceList;
use pieces::piece::Piece;

impl Held {
    // The pieces of a line, without the cells behind them.
    pub(crate) fn line<'c>(
        &self,
        cells: &'c [Piece<Reading>],
        line: usize,
    ) -> PieceList<'c, Reading>
        requires sound { HeldSound cells.now self.now }
        requires there { line < self.now.lines }
        ensures are { result.pieces.now ≡ held_pieces cells.now self.now line }
        ensures kept { Kept result.pieces.now }
    {
        let base = LINE_CELLS * line;
        PieceList {
            pieces: &cells[base..base + self.notes[line].count],
        }
    }
}

// The first tick with the widest reading. There is one, since no entry goes on for ever.
pub(crate) fn first_wide(line: &PieceList<'_, Reading>) -> u32
    requires { Kept line.now.pieces.now }
    ensures { FirstTick (reading_at line.now.pieces.now) widest (Some result) }
{
    let Some(t) = line.first_tick(Reading::widest()) else {
        unreachable()
    };
    t
}

// Whether the reading is inside what the line reads, at each tick of the stretch.
pub(crate) fn narrows(line: &PieceList<'_, Reading>, from: u32, to: u32, reading: Reading) -> bool
    ensures { Tells result ((u : ℕ) → from ≤ u → u < to → Within reading (reading_at line.now.pieces.now u)) }
{
    let mut t = from;
    // From change to change, and not from tick to tick.
    while t < to {
        let (standing, next) = line.lookup(t as u64);
        if !reading.inside(standing) {
            return false;
        }
        t = next.unwrap_or(to);
    }
    true
}
