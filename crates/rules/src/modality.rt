// What F and G say of the part behind their window.
ghost use Rattle.std.specs.Prelude.{◌≡◌};
ghost use Rattle.rules.specs.Grammar.{span};
ghost use Rattle.rules.specs.Tables.{modal_row};

use crate::row::Row;

// F wants it at some tick of the window, and G at each.
#[derive(Clone, Copy)]
pub(crate) enum Modality {
    Eventually,
    Always,
}

impl Modality {
    // The row above a part whose last row is `child`.
    pub(crate) fn row(self, from: u32, to: u32, child: usize) -> Row
        ensures { result ≡ modal_row self (span from to) child }
    {
        match self {
            Modality::Eventually => Row::Eventually { from, to, child },
            Modality::Always => Row::Always { from, to, child },
        }
    }
}
