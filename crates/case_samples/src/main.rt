// Packs the sample texts, and prints each one's name and its listing.
#![tactic(auto)]

ghost use Rattle.std.specs.Prelude.{IfOk};
ghost use Rattle.case_samples.specs.Samples.{SampleListed, FaultShown, Shown};

use case_lines::cells::{MARKS, PIECES, ROWS, WANTS};
use case_lines::listing::write_listing;
use case_text::{BadLine, pack};
use lent::blank::{BLANK_MARK, BLANK_WANT, blank_piece, blank_row};
use lent::cells::Cells;
use std::alloc::{AllocError, Global};
use std::io::Write;
use std::{fs, io};

const SAMPLES: [&str; 6] = [
    "cold_start.txt",
    "flow_before_heat.txt",
    "plate_lift.txt",
    "chamber.txt",
    "day_long.txt",
    "gaps.txt",
];

// The listing of a case.
fn list(case: &[u8], heap: Global) -> io::Result<Vec<u8>>
    ensures { IfOk result (λ shown. SampleListed case.now shown.items) }
{
    // A program's cells are arrays of its own, handed on as slices.
    let mut pieces = [blank_piece(); PIECES];
    let mut truths = [blank_row(); ROWS];
    let mut margins = [blank_row(); ROWS];
    let mut wants = [BLANK_WANT; WANTS];
    let mut marks = [BLANK_MARK; MARKS];
    let mut cells = Cells {
        truths: &mut truths,
        margins: &mut margins,
        wants: &mut wants,
        marks: &mut marks,
    };
    let mut shown = Vec::new(heap);
    write_listing(&mut shown, case, &mut pieces, &mut cells)?;
    Ok(shown)
}

// What is printed of a text that is not packed.
fn show_fault(fault: BadLine, heap: Global) -> io::Result<Vec<u8>>
    ensures { IfOk result (λ shown. FaultShown fault.number shown.items) }
{
    let number = fault.number;
    let shown = format!(in heap; "bad line {number}\n")?;
    Ok(shown.into_bytes())
}

// What is printed of a text: its case's listing, or its bad line.
fn show(text: &[u8], heap: Global) -> io::Result<Vec<u8>>
    ensures { IfOk result (λ shown. Shown text.now shown.items) }
{
    match pack(text) {
        Ok(case) => list(case.as_slice(), heap),
        Err(fault) => show_fault(fault, heap),
    }
}

fn main(rt: HostRuntime) -> io::Result<()> {
    for name in SAMPLES {
        let text = fs::read(&rt, name)?;
        let shown = show(text.as_slice(), rt.alloc())?;
        println!(rt; "{name}")?;
        rt.stdout().write_all(shown.as_slice())?;
    }
    Ok(())
}
