// Real cases as long as a case may be, and one that is a byte longer.
use crate::example::{Example, Lent, note};
use std::alloc::{AllocError, Global};
use std::io;

// Enough for one row, whose list in margin has two pieces, and whose mark is the asked tick alone.
const FEW: Lent = Lent {
    rows: 2,
    wants: 3,
    marks: 1,
};

// A case of one line and one test: entries that each narrow the last, and a tick now and then.
#[derive(Drop)]
struct LongCase {
    bytes: Vec<u8>,
    // How many entries it has.
    entries: i32,
}

impl LongCase {
    // No entry: 11 bytes.
    fn start(heap: Global) -> Result<LongCase, AllocError> {
        let mut bytes = Vec::new(heap);
        bytes.extend_from_slice(b"L\x00\x01aR\x00\x04a>=1")?;
        Ok(LongCase { bytes, entries: 0 })
    }

    // So many entries more, of 20 bytes each: number k, from 0, reads k - 820 .. 820 - k on the ticks 0 to 99.
    fn enter(&mut self, count: u32) -> Result<(), AllocError> {
        for _ in 0..count {
            let lower = self.entries.saturating_sub(820);
            let upper = 820i32.saturating_sub(self.entries);
            self.bytes
                .extend_from_slice(b"E\x00\x11\x00\x00\x00\x00\x00\x00\x00\x00\x64")?;
            self.bytes.extend_from_slice(&lower.to_be_bytes())?;
            self.bytes.extend_from_slice(&upper.to_be_bytes())?;
            self.entries = self.entries.saturating_add(1);
        }
        Ok(())
    }

    // A tick, of 7 bytes.
    fn ask(&mut self, tick: u32) -> Result<(), AllocError> {
        self.bytes.extend_from_slice(b"T\x00\x04")?;
        self.bytes.extend_from_slice(&tick.to_be_bytes())
    }

    // Rounds of so many entries and a tick each, at the ticks 1, 2 and so on.
    fn go_round(&mut self, rounds: u32, entries: u32) -> Result<(), AllocError> {
        for round in 0..rounds {
            self.enter(entries)?;
            self.ask(round + 1)?;
        }
        Ok(())
    }

    // Prints its size, and whether it lists what it should.
    fn note(&self, rt: &HostRuntime, lines: &str) -> io::Result<()> {
        let size = self.bytes.len();
        let title = format!(in rt.alloc(); "a real case of {size} bytes")?;
        note(
            rt,
            &Example {
                title: title.as_str(),
                lent: FEW,
                case: self.bytes.as_slice(),
                lines,
            },
        )
    }
}

// The margin at a tick behind k entries: the lower end is k - 822, and the upper 820 - k.
static TWELVE_THOUSAND: &str =
    "1 unsure -735 733 1\n0 1 2\n2 unsure -650 648 1\n0 2 3\n3 unsure -565 563 1\n0 3 4\n4 unsure -480 478 1\n0 4 5\n5 unsure -395 393 1\n0 5 6\n6 unsure -310 308 1\n0 6 7\n7 unsure -225 223 1\n0 7 8\n";

static LONGEST: &str =
    "1 unsure -766 764 1\n0 1 2\n2 unsure -724 722 1\n0 2 3\n3 unsure -682 680 1\n0 3 4\n4 unsure -640 638 1\n0 4 5\n5 unsure -598 596 1\n0 5 6\n6 unsure -556 554 1\n0 6 7\n7 unsure -514 512 1\n0 7 8\n8 unsure -472 470 1\n0 8 9\n9 unsure -430 428 1\n0 9 10\n10 unsure -388 386 1\n0 10 11\n11 unsure -346 344 1\n0 11 12\n12 unsure -304 302 1\n0 12 13\n13 unsure -262 260 1\n0 13 14\n14 unsure -220 218 1\n0 14 15\n15 unsure -178 176 1\n0 15 16\n16 unsure -136 134 1\n0 16 17\n17 unsure -94 92 1\n0 17 18\n18 unsure -52 50 1\n0 18 19\n19 unsure -10 8 1\n0 19 20\n";

// Cases of 12,000 and of 16,384 bytes are carried out to their last field; one of 16,385 is refused, though its last field is whole.
pub(crate) fn note_long_cases(rt: &HostRuntime) -> io::Result<()> {
    let mut middle = LongCase::start(rt.alloc())?;
    middle.enter(2)?;
    middle.go_round(7, 85)?;
    middle.note(rt, TWELVE_THOUSAND)?;
    let mut longest = LongCase::start(rt.alloc())?;
    longest.enter(14)?;
    longest.go_round(19, 42)?;
    longest.note(rt, LONGEST)?;
    let mut too_long = LongCase::start(rt.alloc())?;
    too_long.go_round(2, 409)?;
    too_long.note(rt, "refused 22 field 0\n")
}
