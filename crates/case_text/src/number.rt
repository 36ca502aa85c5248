// The numbers of a text.
ghost use Rattle.std.specs.Prelude.{◌≡◌, pos, MatchOption};
ghost use Rattle.tokens.specs.Words.{number_written};
ghost use Rattle.case_text.specs.Words.{Digits, WholeNumber, PlainNumber, MinusNumber, WritesReading};
ghost use Rattle.case_text.specs.Parts.{ValueRead};

use tokens::digits::number_of;

// The most digits of a number.
const DIGITS: usize = 10;

const MINUS: u8 = b'-';

// The number that one to ten digits write.
fn ten_digits(word: &[u8]) -> Option<i64>
    ensures { MatchOption result (Digits word.now → ⊥) (λ n. Digits word.now × (n ≡ pos (number_written word.now))) }
{
    if word.is_empty() || word.len() > DIGITS {
        return None;
    }
    let value = number_of(word)?;
    Some(value as i64)
}

/// The whole number that a word writes, in one to ten digits.
pub fn whole(word: &[u8]) -> Option<u32>
    ensures { ValueRead (WholeNumber word.now) result }
{
    u32::try_from(ten_digits(word)?).ok()
}

// The reading that digits write.
fn plain(word: &[u8]) -> Option<i32>
    ensures { ValueRead (PlainNumber word.now) result }
{
    i32::try_from(ten_digits(word)?).ok()
}

// The reading that digits write behind a `-`.
fn minus(digits: &[u8]) -> Option<i32>
    ensures { ValueRead (MinusNumber digits.now) result }
{
    i32::try_from(-ten_digits(digits)?).ok()
}

/// The reading that a word writes, in one to ten digits, with `-` before them or without.
pub fn reading(word: &[u8]) -> Option<i32>
    ensures { ValueRead (WritesReading word.now) result }
{
    match word {
        [MINUS, digits @ ..] => minus(digits),
        _ => plain(word),
    }
}
