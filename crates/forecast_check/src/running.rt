// The whole program, from a source to a sink.
ghost use Rattle.std.specs.Prelude.{take, IfSome};
ghost use Rattle.streams.specs.Fronts.{WritesSome};
ghost use Rattle.case_lines.specs.Listings.{Listing, lent_cells};

use crate::reading::{INPUT_BYTES, read_case};
use case_lines::cells::{MARKS, PIECES, ROWS, WANTS};
use case_lines::listing::write_listing;
use lent::blank::{BLANK_MARK, BLANK_WANT, blank_piece, blank_row};
use lent::cells::Cells;
use std::io;
use std::io::{Read, Write};

/// Reads a case from the source, the first 16,385 bytes or all where there are fewer, and writes its listing to the sink. An interrupted read
/// or write is tried again; any other error of either ends it, and the sink has got a beginning of the listing then.
pub fn run<R: Read, W: Write>(source: &mut R, sink: &mut W) -> io::Result<()>
    ensures { IfSome (R.remaining source.old) (λ xs. WritesSome (W.contents sink.old) (W.contents sink.new) (Listing (lent_cells 1024 1024 1024 1024 256) (take 16385 xs)) result) }
{
    let mut case = [0u8; INPUT_BYTES];
    let size = read_case(source, &mut case)?;
    // A program's cells are arrays of its own, handed on as slices.
    let mut pieces = [blank_piece(); PIECES];
    let mut truths = [blank_row(); ROWS];
    let mut margins = [blank_row(); ROWS];
    let mut wants = [BLANK_WANT; WANTS];
    let mut marks = [BLANK_MARK; MARKS];
    let mut cells = Cells {
        truths: &mut truths,
        margins: &mut margins,
        wants: &mut wants,
        marks: &mut marks,
    };
    write_listing(sink, &case[..size], &mut pieces, &mut cells)
}
