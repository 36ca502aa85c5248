// The words behind a line's first: numbers up to a limit, lines of the job, and kinds of grade.
ghost use Rattle.std.specs.Prelude.{◌≡◌, MatchOption};
ghost use Rattle.tokens.specs.Answers.{texts};
ghost use Rattle.case_text.specs.Parts.{ValueRead};
ghost use Rattle.script_lines.specs.declared.step.GradeKind.{GradeKind};
ghost use Rattle.script_lines.specs.Arguments.{UpTo, NamesLine, kind_word};

use crate::step::GradeKind;
use case_text::number::whole;
use case_text::word::line_of;

// The whole number that the word writes, if it is no more than `most`.
pub(crate) fn up_to(word: &[u8], most: u32) -> Option<u32>
    ensures { ValueRead (UpTo most word.now) result }
{
    let number = whole(word)?;
    (number <= most).then_some(number)
}

// The line that the word names, or whose number it writes.
pub(crate) fn named_line(names: &[&[u8]], word: &[u8]) -> Option<u8>
    ensures { ValueRead (NamesLine (texts names.now) word.now) result }
{
    match line_of(names, word) {
        Some(line) => Some(line),
        None => u8::try_from(whole(word)?).ok(),
    }
}

// The kind of grade that the word is.
pub(crate) fn kind_of(word: &[u8]) -> Option<GradeKind>
    ensures { MatchOption result ((k : GradeKind) → word.now ≡ kind_word k → ⊥) (λ k. word.now ≡ kind_word k) }
{
    match word {
        b"truth" => Some(GradeKind::Truth),
        b"margin" => Some(GradeKind::Margin),
        _ => None,
    }
}
