// The words that lines begin with.
ghost use Rattle.std.specs.Prelude.{◌≡◌, MatchOption};
ghost use Rattle.script_lines.specs.declared.keyword.Keyword.{Keyword};
ghost use Rattle.script_lines.specs.Keywords.{script_word};

#[derive(Clone, Copy)]
pub(crate) enum Keyword {
    Line,
    Rule,
    Enter,
    Known,
    Tally,
    Seal,
    Cells,
    Judge,
    Mark,
    Show,
    Wants,
}

// The keyword that the word is, if it is one.
pub(crate) fn keyword_of(word: &[u8]) -> Option<Keyword>
    ensures { MatchOption result ((k : Keyword) → word.now ≡ script_word k → ⊥) (λ k. word.now ≡ script_word k) }
{
    match word {
        b"line" => Some(Keyword::Line),
        b"rule" => Some(Keyword::Rule),
        b"enter" => Some(Keyword::Enter),
        b"known" => Some(Keyword::Known),
        b"tally" => Some(Keyword::Tally),
        b"seal" => Some(Keyword::Seal),
        b"cells" => Some(Keyword::Cells),
        b"judge" => Some(Keyword::Judge),
        b"mark" => Some(Keyword::Mark),
        b"show" => Some(Keyword::Show),
        b"wants" => Some(Keyword::Wants),
        _ => None,
    }
}
