// Opening a job.
ghost use Rattle.std.specs.Prelude.{◌≡◌, ◌*◌, length, drop};
ghost use Rattle.runs.specs.Bounds.{line_cells};
ghost use Rattle.runs.specs.States.{opened, line_count};
ghost use Rattle.jobs.specs.Jobs.{state_of, cells_of};

use crate::held::{Held, LINE_CELLS, LineNote, MOST_LINES};
use crate::job::Job;
use meaning::reading::Reading;
use pieces::piece::Piece;

impl<'a> Job<'a> {
    /// A job with the lines that are asked for, or 16, or those that the cells have room for, 64 for each: whichever is least. Nothing is known of any line.
    pub fn open(lines: usize, cells: &'a mut [Piece<Reading>]) -> Job<'a>
        ensures state { state_of result ≡ opened (line_count lines (length cells.old)) }
        ensures behind { drop (line_cells * line_count lines (length cells.old)) (cells_of result) ≡ drop (line_cells * line_count lines (length cells.old)) cells.old }
        ensures loan { result.cells.ghost_name ≡ cells.entry.ghost_name }
    {
        let count = lines.min(MOST_LINES).min(cells.len() / LINE_CELLS);
        // Only the first of a line's cells is written, and the line's number gives its place.
        for k in 0..count {
            cells[LINE_CELLS * k] = Piece {
                start: 0,
                value: Reading::widest(),
            };
        }
        Job {
            cells,
            held: Held {
                lines: count,
                notes: [LineNote { count: 1 }; MOST_LINES],
                tally: 0,
                sealed: false,
            },
        }
    }
}
