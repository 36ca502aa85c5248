// The words that lines begin with.
ghost use Rattle.std.specs.Prelude.{◌≡◌, MatchOption};
ghost use Rattle.case_text.specs.declared.keyword.Keyword.{Keyword};
ghost use Rattle.case_text.specs.Keywords.{spelled};

#[derive(Clone, Copy)]
pub(crate) enum Keyword {
    Line,
    Rule,
    Enter,
    Tick,
}

// The keyword that the word is, if it is one.
pub(crate) fn keyword_of(word: &[u8]) -> Option<Keyword>
    ensures { MatchOption result ((k : Keyword) → word.now ≡ spelled k → ⊥) (λ k. word.now ≡ spelled k) }
{
    match word {
        b"line" => Some(Keyword::Line),
        b"rule" => Some(Keyword::Rule),
        b"enter" => Some(Keyword::Enter),
        b"tick" => Some(Keyword::Tick),
        _ => None,
    }
}
