// What a line of a script asks.
use crate::keyword::{Keyword, keyword_of};
use crate::step::{GradeKind, MOST_MARKS, MOST_ROWS, MOST_WANTS};
use crate::words::{kind_of, named_line, up_to};
use case_text::line::five_words;
use case_text::number::{reading, whole};
use case_text::split::{from_first, next_word, one_word, spoken_of};
use cases::field::Entry;
use scripts::call::Portion;

#[derive(Clone, Copy)]
pub(crate) enum Ask<'t> {
    Name(&'t [u8]),
    Rule(&'t [u8]),
    Enter(Entry),
    Known { line: u8 },
    Tally,
    Seal,
    Cells(Portion),
    Judge { kind: GradeKind, tick: u32 },
    Mark { kind: GradeKind, tick: u32 },
    Show { count: usize },
    Wants { count: usize },
}

fn entry_of(names: &[&[u8]], words: &[u8]) -> Option<Entry> {
    let five = five_words(words)?;
    Some(Entry {
        line: named_line(names, five.which)?,
        from: whole(five.begin)?,
        to: whole(five.end)?,
        lower: reading(five.low)?,
        upper: reading(five.high)?,
    })
}

fn portion_of(words: &[u8]) -> Option<Portion> {
    let rows = next_word(words)?;
    let wants = next_word(rows.rest)?;
    let marks = one_word(wants.rest)?;
    Some(Portion {
        rows: up_to(rows.front, MOST_ROWS)? as usize,
        wants: up_to(wants.front, MOST_WANTS)? as usize,
        marks: up_to(marks, MOST_MARKS)? as usize,
    })
}

// A kind of grade and a tick.
fn moment_of(words: &[u8]) -> Option<(GradeKind, u32)> {
    let kind = next_word(words)?;
    let tick = one_word(kind.rest)?;
    Some((kind_of(kind.front)?, whole(tick)?))
}

// The ask, if no words follow.
fn alone<'t>(words: &[u8], ask: Ask<'t>) -> Option<Ask<'t>> {
    next_word(words).is_none().then_some(ask)
}

// What the line asks over lines with these names.
pub(crate) fn ask_of<'t>(names: &[&[u8]], line: &'t [u8]) -> Option<Ask<'t>> {
    let split = next_word(spoken_of(line))?;
    let words = split.rest;
    match keyword_of(split.front)? {
        Keyword::Line => Some(Ask::Name(one_word(words)?)),
        Keyword::Rule => Some(Ask::Rule(from_first(words))),
        Keyword::Enter => Some(Ask::Enter(entry_of(names, words)?)),
        Keyword::Known => Some(Ask::Known {
            line: named_line(names, one_word(words)?)?,
        }),
        Keyword::Tally => alone(words, Ask::Tally),
        Keyword::Seal => alone(words, Ask::Seal),
        Keyword::Cells => Some(Ask::Cells(portion_of(words)?)),
        Keyword::Judge => {
            let (kind, tick) = moment_of(words)?;
            Some(Ask::Judge { kind, tick })
        }
        Keyword::Mark => {
            let (kind, tick) = moment_of(words)?;
            Some(Ask::Mark { kind, tick })
        }
        Keyword::Show => Some(Ask::Show {
            count: up_to(one_word(words)?, MOST_ROWS)? as usize,
        }),
        Keyword::Wants => Some(Ask::Wants {
            count: up_to(one_word(words)?, MOST_WANTS)? as usize,
        }),
    }
}
