// The names of a text's lines.
ghost use Rattle.tokens.specs.Answers.{texts};
ghost use Rattle.case_text.specs.Words.{FirstNamed};
ghost use Rattle.case_text.specs.Parts.{ValueRead};

// How many names an entry can go by.
const NAMES: usize = 256;

/// The number of the first of the names that is this word, if it is one of the first 256.
// One library call, as where a rule is read, which has another bound and another clause.
pub fn line_of(names: &[&[u8]], word: &[u8]) -> Option<u8>
    ensures { ValueRead (FirstNamed (texts names.now) word.now) result }
{
    let line = names.iter().take(NAMES).position(|name| *name == word)?;
    Some(line as u8)
}
