// Cells that are lent to the judge.
use grades::margin::Margin;
use grades::range::Range;
use grades::truth::Truth;
use meaning::mark::Mark;
use pieces::piece::Piece;

/// Cells for the row lists in truth and in margin, for the want lists, and for the marks. What they hold before does not matter.
#[derive(Drop)]
pub struct Cells<'a> {
    pub truths: &'a mut [Piece<Range<Truth>>],
    pub margins: &'a mut [Piece<Range<Margin>>],
    pub wants: &'a mut [Piece<bool>],
    pub marks: &'a mut [Mark],
}
