// Writing the listing of a case, line by line.
ghost use Rattle.std.specs.Prelude.{◌≡◌, length, OnOk};
ghost use Rattle.jobs.specs.Jobs.{state_of, SameLoan};
ghost use Rattle.lent.specs.Holding.{contents, counts, SameLoans};
ghost use Rattle.case_lines.specs.LineTexts.{line_text};
ghost use Rattle.case_lines.specs.Listings.{Listing, lent_cells};
ghost use Rattle.case_lines.specs.Leaves.{CaseLeaves, CarriedOn};
ghost use Rattle.case_lines.specs.Rests.{RestPrints, RestLeaves};
ghost use Rattle.streams.specs.Fronts.{WritesFront, WritesSome};

use crate::field_lister::FieldLister;
use crate::line::{Line, refusal_of};
use crate::opening::Opening;
use crate::sink::put_line;
use jobs::job::Job;
use lent::cells::Cells;
use meaning::reading::Reading;
use pieces::piece::Piece;
use std::io;
use std::io::Write;
use streams::buffer::LineBuffer;
use streams::sink::send;

// Writes one line alone.
fn write_line<W: Write>(sink: &mut W, line: Line) -> io::Result<()>
    ensures { WritesFront (W.contents sink.old) (W.contents sink.new) (line_text line) result }
{
    let mut buffer = LineBuffer::new();
    put_line(sink, &mut buffer, line)?;
    send(sink, &mut buffer)
}

// Writes the lines that are left.
fn write_rest<'c, 'j, 'k, 'p, 'l, W: Write>(
    sink: &mut W,
    lister: &mut FieldLister<'c, 'j, 'k, 'p, 'l>,
) -> io::Result<()>
    ensures prints { WritesSome (W.contents sink.old) (W.contents sink.new) (RestPrints lister.old) result }
    ensures leaves { OnOk result (RestLeaves lister.old (state_of lister.new.job.now) (contents lister.new.cells.now)) }
    ensures pieces { CarriedOn lister.old.job.now lister.new.job.now }
    ensures loan { SameLoan lister.old.job.now lister.new.job.now }
    ensures kept { counts lister.new.cells.now ≡ counts lister.old.cells.now }
    ensures loans { SameLoans lister.old.cells.now lister.new.cells.now }
    ensures same_job { lister.new.job.ghost_name ≡ lister.old.job.ghost_name }
    ensures same_cells { lister.new.cells.ghost_name ≡ lister.old.cells.ghost_name }
{
    let mut buffer = LineBuffer::new();
    while let Some(line) = lister.next() {
        put_line(sink, &mut buffer, line)?;
    }
    send(sink, &mut buffer)
}

/// Writes the listing of a case, on a job that keeps its lines in the lent pieces; the other cells are lent to the judge. No memory is asked for.
/// Lines wait in a buffer of 4,096 bytes, and an interrupted write is tried again. At an error the sink has got a beginning of the listing.
pub fn write_listing<W: Write>(
    sink: &mut W,
    case: &[u8],
    pieces: &mut [Piece<Reading>],
    cells: &mut Cells<'_>,
) -> io::Result<()>
    ensures prints { WritesSome (W.contents sink.old) (W.contents sink.new) (Listing (lent_cells (length pieces.old) (length cells.old.truths.now) (length cells.old.margins.now) (length cells.old.wants.now) (length cells.old.marks.now)) case.now) result }
    ensures leaves { OnOk result (CaseLeaves case.now pieces.old pieces.new (contents cells.old) (contents cells.new)) }
    ensures kept { counts cells.new ≡ counts cells.old }
    ensures loans { SameLoans cells.old cells.new }
{
    match Opening::read(case) {
        Ok(opening) => {
            let mut job = Job::open(opening.heading.lines, pieces);
            // The lister is written out here, so that what it leaves in the job and in the cells is seen of those that are lent.
            let mut lister = FieldLister {
                reader: opening.reader,
                job: &mut job,
                rule: opening.heading.rule,
                cells,
                first: 0,
                after: 0,
                over: false,
            };
            write_rest(sink, &mut lister)
        }
        Err(refusal) => write_line(sink, refusal_of(refusal)),
    }
}
