// Runs cases at the edges of their rules, and prints whether each lists what it should.
#![tactic(auto)]

mod example;
mod examples;
mod late;
mod long;

use example::{Example, Lent, note};
use examples::EXAMPLES;
use late::LATE;
use long::note_long_cases;
use std::io;

const NO_CELLS: Lent = Lent {
    rows: 0,
    wants: 0,
    marks: 0,
};

fn main(rt: HostRuntime) -> io::Result<()> {
    for example in &EXAMPLES {
        note(&rt, example)?;
    }
    for example in &LATE {
        note(&rt, example)?;
    }
    note_long_cases(&rt)?;
    // As long as a case may be, and one byte longer.
    let bytes = [0u8; 16_385];
    note(
        &rt,
        &Example {
            title: "16384 bytes",
            lent: NO_CELLS,
            case: &bytes[..16_384],
            lines: "refused 20 field 1\n",
        },
    )?;
    note(
        &rt,
        &Example {
            title: "16385 bytes",
            lent: NO_CELLS,
            case: &bytes,
            lines: "refused 22 field 0\n",
        },
    )
}
