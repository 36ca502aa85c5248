// How the table fills.
ghost use Rattle.std.specs.Prelude.{◌≡◌, ℕ, ◌+◌, ◌^◌, ◌<◌, [], if◌then◌else◌, Some, None, nat_lt};
ghost use Rattle.std.specs.Option.{option_or};
ghost use Rattle.rules.specs.Readers.{TableHolds, Pushed, Risen};

use crate::row::Row;
use crate::table::Table;

// No token of a rule may be deeper.
const DEPTH: usize = 16;

impl Table {
    pub(crate) fn new() -> Table
        ensures { TableHolds result [] [] }
    {
        Table {
            rows: [Row::Not { child: 0 }; 64],
            count: 0,
            deep: None,
        }
    }

    // Adds a row and answers its number.
    pub(crate) fn push(&mut self, row: Row) -> usize
        requires { self.old.count + 1 < 2 ^ 64 }
        ensures { Pushed row self.old self.new result }
    {
        let at = self.count;
        if at < 64 {
            self.rows[at] = row;
        }
        self.count = at + 1;
        at
    }

    // Notes the depth that the token at this place makes.
    pub(crate) fn rise(&mut self, at: usize, depth: usize)
        ensures { Risen at depth self.old self.new }
    {
        self.deep = first_deep(self.deep, at, depth);
    }
}

// The first token that is too deep, after one more.
fn first_deep(deep: Option<usize>, at: usize, depth: usize) -> Option<usize>
    ensures { result ≡ option_or deep (if nat_lt 16 depth then Some at else None) }
{
    deep.or((depth > DEPTH).then_some(at))
}
