// What holds of every text, on the contract of a function.
ghost use Rattle.tokens.specs.Splits.{Stuck};
ghost use Rattle.tokens.specs.Laws.{TokensAre, OneAnswer, NeverBoth};

// A text has at most one list of tokens with their places, or at most one place at which no token stands, and never both.
pub fn tokens_are_one()
    ensures tokens { OneAnswer TokensAre }
    ensures place { OneAnswer Stuck }
    ensures apart { NeverBoth TokensAre Stuck }
{}
