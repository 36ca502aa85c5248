// Calls on a job at the edges of their limits, one after another.
use crate::report::Report;
use cases::field::Entry;
use compare::cells::{Cell, begin_alike, blank_from, blanks};
use jobs::fault::{EnterFault, NoSuchLine};
use jobs::job::Job;
use meaning::reading::Reading;
use pieces::piece::Piece;
use std::alloc::{AllocError, Global};
use std::{fmt, io, iter};

enum Call {
    Enter(Entry),
    // Enters 0 at each even tick below the end; how many entries are accepted.
    Fill { line: u8, end: u32 },
    Seal,
    Known(u8),
    Tally,
    // How many pieces the line has.
    Pieces(u8),
}

#[derive(Clone, Copy, PartialEq, Eq)]
enum Reply {
    Done,
    Number(u32),
    Refused(EnterFault),
    NoLine(NoSuchLine),
}

use Call::{Enter, Fill, Known, Pieces, Seal, Tally};
use Reply::{Done, NoLine, Number, Refused};

// A refusal is printed as the number by which users know it.
impl fmt::Debug for Reply {
    fn fmt<W: fmt::Write>(&self, f: &mut fmt::Formatter<W>) -> fmt::Result {
        match self {
            Done => write!(f, "Done"),
            Number(number) => write!(f, "Number({number})"),
            Refused(fault) => write!(f, "Refused({})", fault.number()),
            NoLine(fault) => write!(f, "Refused({})", fault.number()),
        }
    }
}

fn enter(job: &mut Job<'_>, entry: Entry) -> Result<(), EnterFault> {
    job.enter(entry.line, entry.from, entry.to, entry.lower, entry.upper)
}

fn fill(job: &mut Job<'_>, line: u8, end: u32) -> u32 {
    let mut accepted = 0u32;
    for t in (0..end).step_by(2) {
        if job.enter(line, t, t + 1, 0, 0).is_ok() {
            accepted = accepted.saturating_add(1);
        }
    }
    accepted
}

// No line has more than 64 pieces.
fn pieces(job: &Job<'_>, line: u8) -> u32 {
    let found = iter::successors(job.reading(line, 0), |(_, next)| {
        next.and_then(|t| job.reading(line, t as u64))
    });
    found.take(1000).count() as u32
}

impl Call {
    // The calls stand in a table with their replies, so they are data and not closures.
    fn play(&self, job: &mut Job<'_>) -> Reply {
        match self {
            Enter(entry) => match enter(job, *entry) {
                Ok(()) => Done,
                Err(fault) => Refused(fault),
            },
            Fill { line, end } => Number(fill(job, *line, *end)),
            Seal => {
                job.seal();
                Done
            }
            Known(line) => match job.known(*line) {
                Ok(t) => Number(t),
                Err(fault) => NoLine(fault),
            },
            Tally => Number(job.tally()),
            Pieces(line) => Number(pieces(job, *line)),
        }
    }
}

impl Reply {
    fn accepts(self) -> bool {
        !matches!(self, Refused(_) | NoLine(_))
    }
}

// What the call is about, the call, and its reply.
struct Step {
    about: &'static str,
    call: Call,
    reply: Reply,
}

// An entry: line, first tick, tick behind the last, lower and upper end.
macro_rules! enter {
    ($line:expr, $from:expr, $to:expr, $lower:expr, $upper:expr) => {
        Enter(Entry {
            line: $line,
            from: $from,
            to: $to,
            lower: $lower,
            upper: $upper,
        })
    };
}

static STEPS: [Step; 61] = [
    Step {
        about: "nothing is known",
        call: Known(0),
        reply: Number(0),
    },
    Step {
        about: "nothing is entered",
        call: Tally,
        reply: Number(0),
    },
    Step {
        about: "known of the last line",
        call: Known(1),
        reply: Number(0),
    },
    Step {
        about: "known of the line behind it",
        call: Known(2),
        reply: NoLine(NoSuchLine),
    },
    Step {
        about: "known of line 255",
        call: Known(255),
        reply: NoLine(NoSuchLine),
    },
    Step {
        about: "entry on the line behind the last",
        call: enter!(2, 0, 1, 0, 0),
        reply: Refused(EnterFault::NoSuchLine),
    },
    Step {
        about: "entry on line 255",
        call: enter!(255, 0, 1, 0, 0),
        reply: Refused(EnterFault::NoSuchLine),
    },
    Step {
        about: "line goes before stretch",
        call: enter!(2, 1, 1, 1, 0),
        reply: Refused(EnterFault::NoSuchLine),
    },
    Step {
        about: "empty stretch",
        call: enter!(0, 0, 0, 0, 0),
        reply: Refused(EnterFault::BadStretch),
    },
    Step {
        about: "stretch that runs back",
        call: enter!(0, 5, 4, 0, 0),
        reply: Refused(EnterFault::BadStretch),
    },
    Step {
        about: "end one past the last",
        call: enter!(0, 0, 1_000_000_002, 0, 0),
        reply: Refused(EnterFault::BadStretch),
    },
    Step {
        about: "end at the greatest number",
        call: enter!(0, 0, u32::MAX, 0, 0),
        reply: Refused(EnterFault::BadStretch),
    },
    Step {
        about: "empty stretch at the end",
        call: enter!(0, 1_000_000_001, 1_000_000_001, 0, 0),
        reply: Refused(EnterFault::BadStretch),
    },
    Step {
        about: "stretch goes before reading",
        call: enter!(0, 1, 1, 1, 0),
        reply: Refused(EnterFault::BadStretch),
    },
    Step {
        about: "lower above upper",
        call: enter!(0, 0, 1, 1, 0),
        reply: Refused(EnterFault::NotReading),
    },
    Step {
        about: "lower end too low",
        call: enter!(0, 0, 1, -500_001, 0),
        reply: Refused(EnterFault::NotReading),
    },
    Step {
        about: "upper end too high",
        call: enter!(0, 0, 1, 0, 500_001),
        reply: Refused(EnterFault::NotReading),
    },
    Step {
        about: "both ends too low",
        call: enter!(0, 0, 1, i32::MIN, i32::MIN),
        reply: Refused(EnterFault::NotReading),
    },
    Step {
        about: "both ends too high",
        call: enter!(0, 0, 1, i32::MAX, i32::MAX),
        reply: Refused(EnterFault::NotReading),
    },
    Step {
        about: "still nothing is entered",
        call: Tally,
        reply: Number(0),
    },
    Step {
        about: "the widest reading",
        call: enter!(0, 0, 10, -500_000, 500_000),
        reply: Done,
    },
    Step {
        about: "it is one piece",
        call: Pieces(0),
        reply: Number(1),
    },
    Step {
        about: "the lowest reading, at the last tick",
        call: enter!(0, 1_000_000_000, 1_000_000_001, -500_000, -500_000),
        reply: Done,
    },
    Step {
        about: "three pieces",
        call: Pieces(0),
        reply: Number(3),
    },
    Step {
        about: "the highest reading, to the end",
        call: enter!(1, 0, 1_000_000_001, 500_000, 500_000),
        reply: Done,
    },
    Step {
        about: "all of line 1 is known",
        call: Known(1),
        reply: Number(1_000_000_001),
    },
    Step {
        about: "a reading on ticks 10 to 19",
        call: enter!(0, 10, 20, -5, 5),
        reply: Done,
    },
    Step {
        about: "lower at the first tick",
        call: enter!(0, 10, 11, -6, 5),
        reply: Refused(EnterFault::NotInside),
    },
    Step {
        about: "higher at the last tick",
        call: enter!(0, 19, 20, -5, 6),
        reply: Refused(EnterFault::NotInside),
    },
    Step {
        about: "outside at the last tick alone",
        call: enter!(0, 0, 11, -6, -6),
        reply: Refused(EnterFault::NotInside),
    },
    Step {
        about: "outside at the first tick alone",
        call: enter!(0, 19, 40, 6, 6),
        reply: Refused(EnterFault::NotInside),
    },
    Step {
        about: "wider again",
        call: enter!(0, 10, 20, -500_000, 500_000),
        reply: Refused(EnterFault::NotInside),
    },
    Step {
        about: "reading goes before inside",
        call: enter!(0, 10, 20, 6, -6),
        reply: Refused(EnterFault::NotReading),
    },
    Step {
        about: "just beside it",
        call: enter!(0, 20, 40, -6, 6),
        reply: Done,
    },
    Step {
        about: "the same again",
        call: enter!(0, 10, 20, -5, 5),
        reply: Done,
    },
    Step {
        about: "six entries",
        call: Tally,
        reply: Number(6),
    },
    Step {
        about: "pieces by now",
        call: Pieces(0),
        reply: Number(6),
    },
    Step {
        about: "nothing is known at 0",
        call: Known(0),
        reply: Number(0),
    },
    Step {
        about: "up to the first reading",
        call: enter!(0, 0, 10, -5, 5),
        reply: Done,
    },
    Step {
        about: "joined",
        call: Pieces(0),
        reply: Number(5),
    },
    Step {
        about: "known to the second reading's end",
        call: Known(0),
        reply: Number(40),
    },
    Step {
        about: "even ticks up to 60",
        call: Fill { line: 0, end: 61 },
        reply: Number(31),
    },
    Step {
        about: "pieces of a full line",
        call: Pieces(0),
        reply: Number(64),
    },
    Step {
        about: "one piece more",
        call: enter!(0, 61, 62, 1, 1),
        reply: Refused(EnterFault::TooManyPieces),
    },
    Step {
        about: "two pieces more",
        call: enter!(0, 100, 101, 0, 0),
        reply: Refused(EnterFault::TooManyPieces),
    },
    Step {
        about: "inside goes before room",
        call: enter!(0, 58, 60, 1, 1),
        reply: Refused(EnterFault::NotInside),
    },
    Step {
        about: "the same on a full line",
        call: enter!(0, 58, 59, 0, 0),
        reply: Done,
    },
    Step {
        about: "another reading on a full line",
        call: enter!(0, 39, 40, -5, 5),
        reply: Done,
    },
    Step {
        about: "full still",
        call: Pieces(0),
        reply: Number(64),
    },
    Step {
        about: "joined on a full line",
        call: enter!(0, 1, 2, 0, 0),
        reply: Done,
    },
    Step {
        about: "two pieces less",
        call: Pieces(0),
        reply: Number(62),
    },
    Step {
        about: "two pieces more again",
        call: enter!(0, 100, 101, 0, 0),
        reply: Done,
    },
    Step {
        about: "full again",
        call: Pieces(0),
        reply: Number(64),
    },
    Step {
        about: "the other line has room",
        call: enter!(1, 5, 6, 500_000, 500_000),
        reply: Done,
    },
    Step {
        about: "entries by now",
        call: Tally,
        reply: Number(43),
    },
    Step {
        about: "seal",
        call: Seal,
        reply: Done,
    },
    Step {
        about: "entry on a sealed job",
        call: enter!(0, 0, 1, 0, 0),
        reply: Refused(EnterFault::Sealed),
    },
    Step {
        about: "seal again",
        call: Seal,
        reply: Done,
    },
    Step {
        about: "sealed goes before all",
        call: enter!(255, 1, 1, 1, 0),
        reply: Refused(EnterFault::Sealed),
    },
    Step {
        about: "known of a sealed job",
        call: Known(1),
        reply: Number(1_000_000_001),
    },
    Step {
        about: "entries at last",
        call: Tally,
        reply: Number(43),
    },
];

// Two lines, and cells behind them.
const CELLS: usize = 130;

// Plays the steps, and reports their replies.
fn play_all(report: &mut Report<'_>, cells: &mut [Piece<Reading>]) -> io::Result<()> {
    let mut job = Job::open(2, cells);
    for step in &STEPS {
        let reply = step.call.play(&mut job);
        report.note(step.about, reply, reply == step.reply)?;
    }
    Ok(())
}

// Plays the steps that are not turned down.
fn play_accepted(cells: &mut [Piece<Reading>]) {
    let mut job = Job::open(2, cells);
    for step in STEPS.iter().filter(|step| step.reply.accepts()) {
        step.call.play(&mut job);
    }
}

// Plays the steps, and then once more without those that are turned down: the cells end up the same.
pub(crate) fn check_calls(report: &mut Report<'_>) -> io::Result<()> {
    let mut one = [<Piece<Reading> as Cell>::blank(); CELLS];
    let mut other = [<Piece<Reading> as Cell>::blank(); CELLS];
    play_all(report, &mut one)?;
    play_accepted(&mut other);
    let alike = begin_alike(&one, &other, CELLS);
    report.note("cells without the calls turned down", alike, alike)?;
    let behind = blank_from(&one, 128);
    report.note("cells behind the lines", behind, behind)
}

// How many lines are wanted, how many cells there are, and how many lines then.
struct Opening {
    wanted: usize,
    cells: usize,
    lines: usize,
}

static OPENINGS: [Opening; 9] = [
    Opening {
        wanted: 0,
        cells: 64,
        lines: 0,
    },
    Opening {
        wanted: 1,
        cells: 0,
        lines: 0,
    },
    Opening {
        wanted: 1,
        cells: 63,
        lines: 0,
    },
    Opening {
        wanted: 1,
        cells: 64,
        lines: 1,
    },
    Opening {
        wanted: 2,
        cells: 127,
        lines: 1,
    },
    Opening {
        wanted: 2,
        cells: 1088,
        lines: 2,
    },
    Opening {
        wanted: 16,
        cells: 1024,
        lines: 16,
    },
    Opening {
        wanted: 17,
        cells: 1088,
        lines: 16,
    },
    Opening {
        wanted: usize::MAX,
        cells: 1088,
        lines: 16,
    },
];

impl Opening {
    // How many lines there are, and whether the cells behind them are as they were.
    fn open(&self, heap: Global) -> Result<(usize, bool), AllocError> {
        let mut cells = blanks::<Piece<Reading>>(heap, self.cells)?;
        let lines = Job::open(self.wanted, cells.as_mut_slice()).lines();
        let behind = blank_from(cells.as_slice(), self.lines.saturating_mul(64));
        Ok((lines, behind))
    }
}

// Opens jobs: as many lines as are wanted, if the cells allow it, and 16 at most; cells behind them stay.
pub(crate) fn check_openings(report: &mut Report<'_>) -> io::Result<()> {
    for opening in &OPENINGS {
        let (lines, behind) = opening.open(report.rt.alloc())?;
        report.note("lines of a job", lines, lines == opening.lines && behind)?;
    }
    Ok(())
}
