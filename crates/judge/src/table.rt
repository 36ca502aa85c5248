// The whole table of rows.
ghost use Rattle.std.specs.Prelude.{ℕ};
ghost use Rattle.rules.specs.Rows.{Sound};
ghost use Rattle.rules.specs.Texts.{table_of};
ghost use Rattle.pieces.specs.Ticks.{Settles};
ghost use Rattle.judge.specs.Judges.{RowsWritten, JudgedRows};

use crate::judgement::Judgement;
use crate::lines::Lines;
use crate::lists::CellLists;
use crate::look::look;
use crate::rows::write_row;
use grades::grade::Grade;
use grades::range::Range;
use pieces::piece::Piece;
use pieces::sweep::Full;
use rules::row::Row;
use rules::rule::Rule;

// Writes the lists of all rows, in row order, and gives where each begins and the last ends.
fn write_rows<G: Grade, L: Lines>(
    lines: &L,
    rows: &[Row],
    cells: &mut [Piece<Range<G>>],
) -> Result<[usize; 65], Full>
    requires sound { Sound rows.now }
    requires settles { (line : ℕ) → Settles (L.Lines.x lines.now line) }
    ensures { RowsWritten G.Grade.kind G.Grade.value rows.now (L.Lines.x lines.now) cells.old cells.new result }
{
    let mut begins = [0usize; 65];
    let mut used = 0;
    for (k, row) in rows.iter().enumerate() {
        used = write_row(*row, &begins, lines, cells, used)?;
        begins[k + 1] = used;
    }
    Ok(begins)
}

// Judges a rule's table: writes the lists of all rows, and gives the last row's range at the tick and where the lists begin.
pub(crate) fn judge_rows<G: Grade, L: Lines>(
    lines: &L,
    rule: &Rule,
    tick: u32,
    cells: &mut [Piece<Range<G>>],
) -> Result<Judgement<G>, Full>
    requires { (line : ℕ) → Settles (L.Lines.x lines.now line) }
    ensures { JudgedRows G.Grade.kind G.Grade.value (table_of rule.now) (L.Lines.x lines.now) cells.old cells.new tick result }
{
    let rows = rule.rows();
    let begins = write_rows(lines, rows, cells)?;
    let lists = CellLists {
        begins: &begins,
        cells,
    };
    let (verdict, _) = look(&lists.list(rows.len() - 1), tick as u64);
    Ok(Judgement { verdict, begins })
}
