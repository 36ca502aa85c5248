// When two rules are the same.
ghost use Rattle.std.specs.Prelude.{◌≡◌, Decides};
ghost use Rattle.rules.specs.Texts.{table_of};
ghost use Rattle.rules.specs.contracts.row.RowPartialEq.TheImpl as row;
ghost use Rattle.rules.specs.contracts.row.RowPartialEq.TheImpl.Laws as laws;
ghost use Rattle.std.specs.Cmp.{on_per};
ghost use Rattle.std.specs.Cmp.Lexicographic.{pointwise, lists_per};
ghost use Rattle.std.specs.Ordering.{on};

use crate::rule::Rule;

// Rules are the same if their rows are; nothing else of the text stays in one.
impl PartialEq for Rule {
    ghost eq = { on table_of (pointwise row.ghosts.eq) };

    ghost laws = { on_per table_of (lists_per laws.laws-law) };

    fn eq(&self, other: &Rule) -> bool
        ensures answer { result ≡ on table_of (pointwise row.ghosts.eq) self.now other.now }
        ensures same { Decides result (table_of self.now ≡ table_of other.now) }
    {
        self.rows() == other.rows()
    }
}
