// Splits a rule text into its tokens.
ghost use Rattle.std.specs.Prelude.{◌≡◌, ℕ, ◌<◌, ◌≤◌, Bool, IsTrue, List, [], ◌∷◌, length, drop, Decides, MatchOption, MatchResult};
ghost use Rattle.std.specs.Fn.{FnReturnsAt};
ghost use Rattle.tokens.specs.Words.{Small, Digit, Blank, NameByte, FirstByte, LineOf, Spells};
ghost use Rattle.tokens.specs.Answers.{texts, Tokenized, Refused};
ghost use Rattle.tokens.specs.Steps.{RunTo, NoSign, NoOrder, ReadAt};

use super::digits::number_of;
use super::fault::TokenFault;
use super::list::Tokens;
use super::token::Token;

// The most bytes of a text, bytes of a name and digits of a number, and how many names count.
const TEXT_BYTES: usize = 1024;

const NAME_BYTES: usize = 8;

const DIGITS: usize = 9;

const NAMES: usize = 16;

// A token, and the place behind its last byte.
#[derive(Clone, Copy)]
struct Word {
    token: Token,
    end: usize,
}

fn is_blank(byte: &u8) -> bool
    ensures { Decides result (Blank byte.now) }
{
    matches!(byte, b' ' | b'\n')
}

// Whether a name may go on with the byte.
pub fn is_name_byte(byte: &u8) -> bool
    ensures { Decides result (NameByte byte.now) }
{
    byte.is_ascii_lowercase() || byte.is_ascii_digit()
}

// A place of a text at which a byte stands.
#[derive(Clone, Copy)]
struct Place<'a> {
    text: &'a [u8],
    at: usize,
    ghost within: { at < length text.now },
}

// Where the run of bytes that pass the test ends that begins at `at`; it may be empty.
fn run_end<F: Fn(&u8) -> bool>(text: &[u8], at: usize, passes: F) -> usize
    requires within { at ≤ length text.now }
    requires callable { F.IsAlwaysCallable passes }
    ensures bounds { (at ≤ result) × (result ≤ length text.now) }
    ensures run { (p : ℕ → Bool) → ((b : ℕ) (r : Bool) → FnReturnsAt F.Fn passes b r → r ≡ p b) → RunTo (λ b. IsTrue (p b)) text.now at result }
{
    at + text[at..].iter().take_while(|byte| passes(*byte)).count()
}

// The first line that has this name, of the first 16.
fn line_of(names: &[&[u8]], name: &[u8]) -> Option<u8>
    ensures { LineOf (texts names.now) name.now result }
{
    let line = names.iter().take(NAMES).position(|known| *known == name);
    line.map(|line| line as u8)
}

// The token that this byte is alone.
fn sign(byte: u8) -> Option<Token>
    ensures { MatchOption result (NoSign byte) (λ token. (names : List (List ℕ)) → Spells names (byte ∷ []) token) }
{
    match byte {
        b'|' => Some(Token::Or),
        b'&' => Some(Token::And),
        b'!' => Some(Token::Not),
        b'(' => Some(Token::Open),
        b')' => Some(Token::Close),
        b'[' => Some(Token::Left),
        b']' => Some(Token::Right),
        b',' => Some(Token::Comma),
        b'-' => Some(Token::Minus),
        b'G' => Some(Token::Always),
        b'F' => Some(Token::Eventually),
        b'U' => Some(Token::Until),
        _ => None,
    }
}

// The token that this byte is with a `=` behind it.
fn order(byte: u8) -> Option<Token>
    ensures { MatchOption result (NoOrder byte) (λ token. (names : List (List ℕ)) → Spells names (byte ∷ 61 ∷ []) token) }
{
    match byte {
        b'>' => Some(Token::AtLeast),
        b'<' => Some(Token::AtMost),
        _ => None,
    }
}

// Whether so many digits are a number, of which the first is `first`.
fn well_formed(first: u8, digits: usize) -> bool
    ensures { Decides result ((digits ≤ 9) × (first ≡ 48 → digits ≤ 1)) }
{
    digits <= DIGITS && (first != b'0' || digits <= 1)
}

impl Place<'_> {
    // The symbol that begins here, where neither a blank nor a name nor a number does.
    fn symbol(&self) -> Result<Word, TokenFault>
        requires { (FirstByte Blank (drop self.now.at self.now.text.now) → ⊥) × (FirstByte Small (drop self.now.at self.now.text.now) → ⊥) × (FirstByte Digit (drop self.now.at self.now.text.now) → ⊥) }
        ensures { (names : List (List ℕ)) → ReadAt names self.now.text.now self.now.at result }
    {
        let at = self.at;
        if let Some(token) = sign(self.text[at]) {
            return Ok(Word { token, end: at + 1 });
        }
        if self.text.get(at + 1) == Some(&b'=') {
            if let Some(token) = order(self.text[at]) {
                return Ok(Word { token, end: at + 2 });
            }
        }
        Err(TokenFault::Malformed { at })
    }

    // The name that begins here.
    fn name(&self, names: &[&[u8]]) -> Result<Word, TokenFault>
        requires { FirstByte Small (drop self.now.at self.now.text.now) }
        ensures { ReadAt (texts names.now) self.now.text.now self.now.at result }
    {
        let at = self.at;
        let end = run_end(self.text, at, is_name_byte);
        if end - at > NAME_BYTES {
            return Err(TokenFault::Malformed { at });
        }
        let token = Token::Name(line_of(names, &self.text[at..end]));
        Ok(Word { token, end })
    }

    // The number that begins here.
    fn number(&self) -> Result<Word, TokenFault>
        requires { FirstByte Digit (drop self.now.at self.now.text.now) }
        ensures { (names : List (List ℕ)) → ReadAt names self.now.text.now self.now.at result }
    {
        let at = self.at;
        let end = run_end(self.text, at, u8::is_ascii_digit);
        match number_of(&self.text[at..end]) {
            Some(value) if well_formed(self.text[at], end - at) => Ok(Word {
                token: Token::Number(value as u32),
                end,
            }),
            _ => Err(TokenFault::Malformed { at }),
        }
    }

    // The word that begins here, where no blank stands.
    fn word(&self, names: &[&[u8]]) -> Result<Word, TokenFault>
        requires { FirstByte Blank (drop self.now.at self.now.text.now) → ⊥ }
        ensures { ReadAt (texts names.now) self.now.text.now self.now.at result }
    {
        let first = self.text[self.at];
        if first.is_ascii_digit() {
            self.number()
        } else if first.is_ascii_lowercase() {
            self.name(names)
        } else {
            self.symbol()
        }
    }
}

// The tokens of the text from the left. Lines go by the first 16 names, and of equal ones by the first.
pub fn tokenize(text: &[u8], names: &[&[u8]]) -> Result<Tokens, TokenFault>
    ensures { MatchResult result (λ ts. Tokenized (texts names.now) text.now ts) (λ f. Refused (texts names.now) text.now f) }
{
    if text.len() > TEXT_BYTES {
        return Err(TokenFault::TooLong);
    }
    let mut tokens = Tokens::new();
    let mut at = run_end(text, 0, is_blank);
    // From word to word, which no range counts.
    while at < text.len() {
        let place = Place { text, at };
        let word = place.word(names)?;
        tokens.push(at, word.token);
        at = run_end(text, word.end, is_blank);
    }
    Ok(tokens)
}
