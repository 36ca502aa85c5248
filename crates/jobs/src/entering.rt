// Entering readings.
ghost use Rattle.std.specs.Prelude.{◌<◌};
ghost use Rattle.runs.specs.Jobs.{JobTurn, enter};
ghost use Rattle.jobs.specs.Checks.{Barred, Ready, Checked};
ghost use Rattle.jobs.specs.Entries.{Changes};
ghost use Rattle.jobs.specs.Faults.{enter_reply};
ghost use Rattle.jobs.specs.Holds.{HeldSound};
ghost use Rattle.jobs.specs.Jobs.{state_of};
ghost use Rattle.jobs.specs.Lines.{held_state};

use crate::fault::EnterFault;
use crate::held::{Held, LAST_END, LINE_CELLS, LineNote};
use crate::job::Job;
use crate::look::narrows;
use crate::plan::plan;
use crate::splice::{size_after, splice};
use crate::stretch::Stretch;
use meaning::reading::Reading;
use pieces::piece::Piece;

impl Held {
    // What stands against an entry whatever is read: the job, the line or the ticks.
    fn barred(&self, stretch: Stretch) -> Result<(), EnterFault>
        ensures { Barred self.now stretch.line stretch.from stretch.to result }
    {
        if self.sealed {
            return Err(EnterFault::Sealed);
        }
        if stretch.line >= self.lines {
            return Err(EnterFault::NoSuchLine);
        }
        if stretch.from >= stretch.to || stretch.to > LAST_END {
            return Err(EnterFault::BadStretch);
        }
        Ok(())
    }

    // Sets the reading on the stretch and counts the entry, unless the line would have too many pieces.
    pub(crate) fn write(
        &mut self,
        cells: &mut [Piece<Reading>],
        stretch: Stretch,
        reading: Reading,
    ) -> Result<(), EnterFault>
        requires sound { HeldSound cells.old self.old }
        requires there { stretch.line < self.old.lines }
        requires ready { Ready (held_state cells.old self.old) stretch.line stretch.from stretch.to reading }
        ensures sound { HeldSound cells.new self.new }
        ensures turn { JobTurn (held_state cells.old self.old) (enter stretch.line stretch.from stretch.to reading.lower reading.upper) (enter_reply result) (held_state cells.new self.new) }
        ensures cells { Changes stretch.line cells.old cells.new result }
    {
        let line = stretch.line;
        let edit = plan(&self.line(cells, line), stretch.from, stretch.to, reading);
        let count = self.notes[line].count;
        let size = size_after(edit, count);
        if size > LINE_CELLS {
            return Err(EnterFault::TooManyPieces);
        }
        splice(cells, LINE_CELLS * line, count, edit);
        self.notes[line] = LineNote { count: size };
        self.tally = self.tally.saturating_add(1);
        Ok(())
    }
}

impl<'a> Job<'a> {
    // The reading to be entered, or why it cannot be; only whether there is room for it is left open.
    pub(crate) fn checked(
        &self,
        stretch: Stretch,
        lower: i32,
        upper: i32,
    ) -> Result<Reading, EnterFault>
        ensures { Checked (state_of self.now) stretch.line stretch.from stretch.to lower upper result }
    {
        self.held.barred(stretch)?;
        let Some(reading) = Reading::new(lower, upper) else {
            return Err(EnterFault::NotReading);
        };
        let line = self.held.line(self.cells, stretch.line);
        if !narrows(&line, stretch.from, stretch.to, reading) {
            return Err(EnterFault::NotInside);
        }
        Ok(reading)
    }
}
