// Why a text is no rule.
ghost use Rattle.std.specs.Prelude.{◌≡◌};
ghost use Rattle.rules.specs.declared.fault.RuleFault.TheVariants.{Token};

use tokens::fault::TokenFault;

// Places are bytes of the text.
#[derive(Clone, Copy, PartialEq, Eq)]
pub enum RuleFault {
    // The text has no byte.
    Empty,
    // The text is too long, or somewhere no token begins.
    Token(TokenFault),
    // The token with which no rule text can go on, the first such, or the length of a text that ends too early.
    Grammar { at: usize },
    // A name that is not a line's.
    UnknownName { at: usize },
    // A limit or a window that is out of bounds, at its first number.
    OutOfBounds { at: usize },
    // A token that makes the depth 17.
    TooDeep { at: usize },
    // More than 64 rows.
    TooManyRows,
    // The reach is above 500,000,000.
    TooFar,
}

impl From<TokenFault> for RuleFault {
    ghost from_gives = { λ e r. r ≡ Token e };

    fn from(fault: TokenFault) -> RuleFault {
        RuleFault::Token(fault)
    }
}
