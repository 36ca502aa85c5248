// What cells are filled with before they are lent.
ghost use Rattle.std.specs.Prelude.{◌≡◌};
ghost use Rattle.grades.specs.Ranges.{span};
ghost use Rattle.grades.specs.Worth.{worth};
ghost use Rattle.meaning.specs.Readings.{widest};

use grades::grade::Grade;
use grades::range::Range;
use meaning::mark::Mark;
use meaning::reading::Reading;
use pieces::piece::Piece;

pub const BLANK_WANT: Piece<bool> = Piece {
    start: 0,
    value: false,
};

pub const BLANK_MARK: Mark = Mark {
    row: 0,
    first: 0,
    after: 0,
};

/// A cell for the pieces of a line: a reading that says nothing.
pub fn blank_piece() -> Piece<Reading>
    ensures start { result.start ≡ 0 }
    ensures value { result.value ≡ widest }
{
    Piece {
        start: 0,
        value: Reading::widest(),
    }
}

/// A cell for the row lists of a grade: a range that says nothing.
pub fn blank_row<G: Grade>() -> Piece<Range<G>>
    ensures start { result.start ≡ 0 }
    ensures value { worth G.kind G.value result.value ≡ span G.kind.lowest G.kind.highest }
{
    Piece {
        start: 0,
        value: Range {
            lower: G::lowest(),
            upper: G::highest(),
        },
    }
}
