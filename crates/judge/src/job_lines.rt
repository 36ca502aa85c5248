// A job's readings, as the judge asks for them.
ghost use Rattle.runs.specs.States.{readings_of};
ghost use Rattle.jobs.specs.Jobs.{state_of};

use crate::lines::Lines;
use jobs::job::Job;
use meaning::reading::Reading;

// A line that the job lacks reads the widest, for ever.
impl<'a> Lines for Job<'a> {
    ghost x = { λ j. readings_of (state_of j) };

    fn read(&self, line: u8, t: u32) -> (Reading, Option<u32>) {
        self.reading(line, t as u64)
            .unwrap_or((Reading::widest(), None))
    }
}
