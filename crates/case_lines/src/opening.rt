// Reading a case's heading.
ghost use Rattle.std.specs.Prelude.{List, IfErr, MatchResult};
ghost use Rattle.pieces.specs.declared.piece.Piece.{Piece};
ghost use Rattle.meaning.specs.declared.reading.Reading.{Reading};
ghost use Rattle.lent.specs.Holding.{Contents};
ghost use Rattle.case_lines.specs.Leaves.{CaseLeaves};
ghost use Rattle.case_lines.specs.Lines.{refusal_line};
ghost use Rattle.case_lines.specs.Listings.{LentCells, Listing};
ghost use Rattle.case_lines.specs.Rests.{HeadingRead};

use cases::fault::CaseRefusal;
use cases::heading::Heading;
use cases::reader::CaseReader;

/// A heading, and the reader behind it.
#[derive(Drop)]
pub struct Opening<'a> {
    pub reader: CaseReader<'a>,
    pub heading: Heading,
}

impl<'a> Opening<'a> {
    /// Reads the heading of a case. Where it is refused, the refusal is the whole listing, whatever is lent.
    pub fn read(case: &'a [u8]) -> Result<Opening<'a>, CaseRefusal>
        ensures prints { MatchResult result (λ o. HeadingRead case.entry.now o) (λ e. (lent : LentCells) → Listing lent case.entry.now (refusal_line e)) }
        ensures leaves { IfErr result (λ e. (pieces : List (Piece Reading)) (before : Contents) → CaseLeaves case.entry.now pieces pieces before before) }
    {
        let mut reader = CaseReader::new(case)?;
        let heading = reader.heading()?;
        Ok(Opening { reader, heading })
    }
}
