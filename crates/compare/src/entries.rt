// Entries, made on a job and on the reference.
ghost use Rattle.std.specs.Prelude.{◌≡◌, ℕ, ◌<◌, true, length, IfOk};
ghost use Rattle.jobs.specs.Jobs.{state_of, cells_of};
ghost use Rattle.compare.specs.Agreement.{ReadsAlike, KnownAlike, Agrees};
ghost use Rattle.compare.specs.Entering.{Given, JobEnters, Notes};

use crate::cells::ends_read;
use crate::mismatch::{Mismatch, ensure};
use cases::field::Entry;
use jobs::fault::{EnterFault, NoSuchLine};
use jobs::job::Job;
use reference::forecast::{Forecast, LINES, TICKS};

// A job, and what the reference has of it.
#[derive(Drop)]
pub struct Pair<'a> {
    pub job: Job<'a>,
    pub forecast: Forecast,
}

impl Pair<'_> {
    // Whether the job reads at a tick of a line as the reference does, and names the tick where that changes.
    fn reads_alike(&self, line: u8, t: usize) -> bool
        ensures { result ≡ true → line < length (state_of self.now.job).lines → ReadsAlike (state_of self.now.job) self.now.forecast line t }
    {
        let row = line as usize;
        let Some((reading, next)) = self.job.reading(line, t as u64) else {
            return row >= self.forecast.lines;
        };
        let change = next.map(|tick| tick as usize);
        self.forecast.reading(row, t) == ends_read(reading)
            && self.forecast.change(row, t) == change
    }

    fn known_alike(&self, line: u8) -> bool
        ensures { result ≡ true → line < length (state_of self.now.job).lines → KnownAlike (state_of self.now.job) self.now.forecast line }
    {
        let row = line as usize;
        match self.job.known(line) {
            Ok(t) => t as usize == self.forecast.known(row),
            Err(NoSuchLine) => row >= self.forecast.lines,
        }
    }

    // The same at each tick of the line that is kept.
    fn line_alike(&self, line: u8) -> bool
        ensures { result ≡ true → line < length (state_of self.now.job).lines → (t : ℕ) → t < 49 → ReadsAlike (state_of self.now.job) self.now.forecast line t }
    {
        (0..TICKS).all(|t| self.reads_alike(line, t))
    }

    // Whether the job is as the reference has it, in all that may be asked of it.
    pub fn alike(&self) -> bool
        ensures { result ≡ true → Agrees (state_of self.now.job) self.now.forecast }
    {
        (0..LINES as u8).all(|line| self.known_alike(line) && self.line_alike(line))
            && self.job.tally() == self.forecast.tally
            && self.job.lines() == self.forecast.lines
    }

    // Makes the entry on both, and gives their answer.
    pub fn enter(&mut self, entry: Entry) -> Result<Result<(), EnterFault>, Mismatch>
        ensures job { Given result (λ r. JobEnters (state_of self.old.job) (cells_of self.old.job) entry r (state_of self.new.job) (cells_of self.new.job)) }
        ensures alike { IfOk result (λ r. Agrees (state_of self.new.job) self.new.forecast) }
        ensures reference { Given result (λ r. Notes self.old.forecast entry r self.new.forecast) }
    {
        let answer = self.forecast.enter(entry);
        let found = self
            .job
            .enter(entry.line, entry.from, entry.to, entry.lower, entry.upper);
        ensure(found == answer, Mismatch::Answer)?;
        ensure(self.alike(), Mismatch::Readings)?;
        Ok(answer)
    }
}
