// The tokens of a text, each with its place.
ghost use Rattle.std.specs.Prelude.{◌≡◌, ◌<◌, ◌≤◌, [], ◌∷◌, ◌++◌, length, take};

use super::token::Token;

// A token takes a byte at least, so 1,024 bytes have no more tokens than that.
// Plain arrays with a count: array vectors of this size cost more to fill and to move than most rules cost to read.
// Places are an array of their own, since the readers of a rule go over the tokens alone.
#[derive(Drop)]
pub struct Tokens {
    tokens: [Token; 1024],
    places: [usize; 1024],
    count: usize,
    ghost fits: { count ≤ 1024 },
    ghost paired: { length (take count places) ≡ length (take count tokens) },
}

impl Tokens {
    // No token.
    pub(crate) fn new() -> Tokens
        ensures tokens { take result.count result.tokens ≡ [] }
        ensures places { take result.count result.places ≡ [] }
    {
        Tokens {
            tokens: [Token::Or; 1024],
            places: [0; 1024],
            count: 0,
        }
    }

    // Puts one more token behind the others.
    pub(crate) fn push(&mut self, place: usize, token: Token)
        requires { length (take self.old.count self.old.tokens) < 1024 }
        ensures tokens { take self.new.count self.new.tokens ≡ take self.old.count self.old.tokens ++ token ∷ [] }
        ensures places { take self.new.count self.new.places ≡ take self.old.count self.old.places ++ place ∷ [] }
    {
        let at = self.count;
        self.tokens[at] = token;
        self.places[at] = place;
        self.count = at + 1;
    }

    // The tokens, from the left.
    pub fn tokens(&self) -> &[Token]
        ensures { result.now ≡ take self.now.count self.now.tokens }
    {
        &self.tokens[0..self.count]
    }

    // Where each token's first byte stands in the text.
    pub fn places(&self) -> &[usize]
        ensures { result.now ≡ take self.now.count self.now.places }
    {
        &self.places[0..self.count]
    }
}
