// A case with its listing.
ghost use Rattle.std.specs.Prelude.{min, IfOk};
ghost use Rattle.case_lines.specs.Listings.{Listing, lent_cells};

use case_lines::cells::PIECES;
use case_lines::listing::write_listing;
use lent::blank::{BLANK_MARK, BLANK_WANT, blank_piece, blank_row};
use lent::cells::Cells;
use std::alloc::Global;
use std::io;
use std::io::Write;

// The most cells of a sort that are lent to the judge.
const MOST: usize = 64;

// How many cells of the judge are lent; row cells are as many for each grade.
#[derive(Clone, Copy)]
pub(crate) struct Lent {
    pub(crate) rows: usize,
    pub(crate) wants: usize,
    pub(crate) marks: usize,
}

// A case, the cells for it, and what it lists.
#[derive(Clone, Copy)]
pub(crate) struct Example<'a> {
    pub(crate) title: &'a str,
    pub(crate) lent: Lent,
    pub(crate) case: &'a [u8],
    pub(crate) lines: &'a str,
}

// The listing of the case, with 16 lines' piece cells.
pub(crate) fn listing(heap: Global, lent: Lent, case: &[u8]) -> io::Result<Vec<u8>>
    ensures { IfOk result (λ text. Listing (lent_cells 1024 (min lent.rows 64) (min lent.rows 64) (min lent.wants 64) (min lent.marks 64)) case.now text.items) }
{
    // A program's cells are arrays of its own, handed on as slices.
    let mut pieces = [blank_piece(); PIECES];
    let mut truths = [blank_row(); MOST];
    let mut margins = [blank_row(); MOST];
    let mut wants = [BLANK_WANT; MOST];
    let mut marks = [BLANK_MARK; MOST];
    let rows = lent.rows.min(MOST);
    let want_cells = lent.wants.min(MOST);
    let mark_cells = lent.marks.min(MOST);
    let mut cells = Cells {
        truths: &mut truths[..rows],
        margins: &mut margins[..rows],
        wants: &mut wants[..want_cells],
        marks: &mut marks[..mark_cells],
    };
    let mut text = Vec::new(heap);
    write_listing(&mut text, case, &mut pieces, &mut cells)?;
    Ok(text)
}

// Prints whether the case lists what it should, and what it lists if not.
pub(crate) fn note(rt: &HostRuntime, example: &Example<'_>) -> io::Result<()> {
    let title = example.title;
    let found = listing(rt.alloc(), example.lent, example.case)?;
    if found.as_slice() == example.lines.as_bytes() {
        println!(rt; "{title}: right")
    } else {
        println!(rt; "{title}: WRONG")?;
        rt.stdout().write_all(found.as_slice())
    }
}
