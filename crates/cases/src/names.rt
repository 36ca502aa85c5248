// The names of a case's lines.
ghost use Rattle.std.specs.Prelude.{Decides};
ghost use Rattle.tokens.specs.Answers.{texts};
ghost use Rattle.tokens.specs.Words.{IsName};
ghost use Rattle.cases.specs.Orders.{Admits};

use crate::field::NAME_BYTES;
use tokens::lexer::is_name_byte;

/// The most names of a case.
pub const NAMES: usize = 16;

// A small letter, and up to seven small letters and digits.
fn is_name(word: &[u8]) -> bool
    ensures { Decides result (IsName word.now) }
{
    let [first, ..] = word else {
        return false;
    };
    first.is_ascii_lowercase() && word.len() <= NAME_BYTES && word.iter().all(is_name_byte)
}

/// Whether the word may be the next name behind these: it is a name, it is none of them, and they are fewer than 16.
pub fn admits(names: &[&[u8]], word: &[u8]) -> bool
    ensures { Decides result (Admits (texts names.now) word.now) }
{
    names.len() < NAMES && is_name(word) && !names.contains(&word)
}
