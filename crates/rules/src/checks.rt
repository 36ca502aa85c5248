// The checks over all tokens, once the grammar is kept.
ghost use Rattle.std.specs.Prelude.{◌≡◌, ℕ, drop};
ghost use Rattle.rules.specs.Checks.{bad_window, bad_limit};
ghost use Rattle.rules.specs.Scans.{first_from, nameless, unknown_here, number_of, first_number, is_far_number, askew, wrong_by, wrong_here};

use tokens::token::Token;

// No limit is further from 0, and no window ends later.
const LIMIT: u32 = 500_000;

const WINDOW_END: u32 = 500_000_000;

fn is_nameless(token: Token) -> bool
    ensures { result ≡ nameless token }
{
    matches!(token, Token::Name(None))
}

// The first name that is not a line's.
pub(crate) fn unknown_name(tokens: &[Token]) -> Option<usize>
    ensures { result ≡ first_from unknown_here 0 tokens.now }
{
    tokens.iter().position(|token| is_nameless(*token))
}

fn number_of(token: Token) -> Option<u32>
    ensures { result ≡ number_of token }
{
    match token {
        Token::Number(n) => Some(n),
        _ => None,
    }
}

fn number_at(tokens: &[Token], at: usize) -> Option<u32>
    ensures { result ≡ first_number (drop at tokens.now) }
{
    number_of(*tokens.get(at)?)
}

fn is_far(limit: Option<u32>) -> bool
    ensures { result ≡ is_far_number limit }
{
    limit.is_some_and(|n| n > LIMIT)
}

fn is_askew(from: Option<u32>, to: Option<u32>) -> bool
    ensures { result ≡ askew from to }
{
    match (from, to) {
        (Some(a), Some(b)) => b < a || b > WINDOW_END,
        _ => false,
    }
}

// Whether the number behind this token is out of bounds: a limit, or a window's first.
fn is_wrong(token: Token, behind: &[Token]) -> bool
    ensures { result ≡ wrong_by token behind.now }
{
    match token {
        Token::AtLeast | Token::AtMost | Token::Minus => is_far(number_at(behind, 0)),
        Token::Left => is_askew(number_at(behind, 0), number_at(behind, 2)),
        _ => false,
    }
}

// The first limit or window that is out of bounds, by its first number.
pub(crate) fn out_of_bounds(tokens: &[Token]) -> Option<usize>
    ensures { result ≡ first_from wrong_here 1 tokens.now }
{
    for (at, token) in tokens.iter().enumerate() {
        if is_wrong(*token, &tokens[at + 1..]) {
            return Some(at + 1);
        }
    }
    None
}
