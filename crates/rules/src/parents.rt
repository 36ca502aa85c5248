// Which row has another as its child.
ghost use Rattle.std.specs.Prelude.{◌≡◌};
ghost use Rattle.rules.specs.Parents.{FirstParent, Parent, has_child as is_its_child};
ghost use Rattle.rules.specs.Texts.{table_of};

use crate::row::Row;
use crate::rule::Rule;

fn has_child(row: Row, child: usize) -> bool
    ensures { result ≡ is_its_child row child }
{
    match row {
        Row::Test { .. } => false,
        Row::Not { child: only }
        | Row::Eventually { child: only, .. }
        | Row::Always { child: only, .. } => child == only,
        Row::And { left, right } | Row::Or { left, right } | Row::Until { left, right, .. } => {
            child == left || child == right
        }
    }
}

/// The first of any rows that has row `child` as its child, if one has.
pub fn parent_in(rows: &[Row], child: usize) -> Option<usize>
    ensures { FirstParent rows.now child result }
{
    rows.iter().position(|row| has_child(*row, child))
}

impl Rule {
    /// The row whose child the row is. The last row has none, and neither has a number that is no row's.
    pub fn parent(&self, row: usize) -> Option<usize>
        ensures { Parent (table_of self.now) row result }
    {
        parent_in(self.rows(), row)
    }
}
