// Where the readings come from.
ghost use Rattle.pieces.specs.Ticks.{Steady, Changed};
ghost use Rattle.meaning.specs.Readings.{Readings};

use meaning::reading::Reading;

// What each line reads at every tick.
pub(crate) trait Lines {
    ghost x: { Self → Readings };

    // The line's reading at t, and the tick where that next changes, or none if it stays for ever.
    fn read(&self, line: u8, t: u32) -> (Reading, Option<u32>)
        ensures steady { Steady (x self.now line) t result.0 result.1 }
        ensures changed { Changed (x self.now line) result.0 result.1 };
}
