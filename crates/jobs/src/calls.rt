// What may be asked of a job.
ghost use Rattle.std.specs.Prelude.{◌≡◌, length, Ok};
ghost use Rattle.runs.specs.Jobs.{JobTurn, enter, known, tally, seal, accepted, count};
ghost use Rattle.jobs.specs.Faults.{enter_reply, known_reply};
ghost use Rattle.jobs.specs.Entries.{Changes};
ghost use Rattle.jobs.specs.Jobs.{state_of, cells_of, SameLoan, Looked};

use crate::fault::{EnterFault, NoSuchLine};
use crate::job::Job;
use crate::look::first_wide;
use crate::stretch::Stretch;
use meaning::reading::Reading;

impl<'a> Job<'a> {
    /// How many lines there are; they are numbered from 0.
    pub fn lines(&self) -> usize
        ensures { result ≡ length (state_of self.now).lines }
    {
        self.held.lines
    }

    /// What the line reads at the tick (a millisecond), and the tick where that next changes, if it does. None where the job has no such line.
    pub fn reading(&self, line: u8, t: u64) -> Option<(Reading, Option<u32>)>
        ensures { Looked (state_of self.now) line t result }
    {
        if line as usize >= self.held.lines {
            return None;
        }
        Some(self.held.line(self.cells, line as usize).lookup(t))
    }

    /// Sets the reading from `lower` to `upper` from the tick `from` to the tick before `to` (milliseconds), and counts the entry.
    /// It is turned down, and changes nothing, for the first that holds of the cases of `EnterFault`; it may only narrow what stands, or repeat it.
    pub fn enter(
        &mut self,
        line: u8,
        from: u32,
        to: u32,
        lower: i32,
        upper: i32,
    ) -> Result<(), EnterFault>
        ensures turn { JobTurn (state_of self.old) (enter line from to lower upper) (enter_reply result) (state_of self.new) }
        ensures cells { Changes line (cells_of self.old) (cells_of self.new) result }
        ensures loan { SameLoan self.old self.new }
    {
        let stretch = Stretch {
            line: line as usize,
            from,
            to,
        };
        let reading = self.checked(stretch, lower, upper)?;
        let cells = &mut *self.cells;
        self.held.write(cells, stretch, reading)
    }

    /// The line's first tick with the widest reading, of which nothing is known. Turned down where the job has no such line.
    pub fn known(&self, line: u8) -> Result<u32, NoSuchLine>
        ensures { JobTurn (state_of self.now) (known line) (known_reply result) (state_of self.now) }
    {
        if line as usize >= self.held.lines {
            return Err(NoSuchLine);
        }
        Ok(first_wide(&self.held.line(self.cells, line as usize)))
    }

    /// How many entries were accepted; it rests at the greatest number.
    pub fn tally(&self) -> u32
        ensures { JobTurn (state_of self.now) tally (Ok (count result)) (state_of self.now) }
    {
        self.held.tally
    }

    /// Ends entering. Sealing again changes nothing.
    pub fn seal(&mut self)
        ensures turn { JobTurn (state_of self.old) seal (Ok accepted) (state_of self.new) }
        ensures cells { cells_of self.new ≡ cells_of self.old }
        ensures loan { SameLoan self.old self.new }
    {
        self.held.sealed = true;
    }
}
