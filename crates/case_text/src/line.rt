// What a line of a text says.
ghost use Rattle.std.specs.Prelude.{ℕ, List, Decides};
ghost use Rattle.tokens.specs.Answers.{texts};
ghost use Rattle.case_text.specs.Words.{WordsEnter};
ghost use Rattle.case_text.specs.Sayings.{Silent};
ghost use Rattle.case_text.specs.Pieces.{spoken};
ghost use Rattle.case_text.specs.Parts.{ValueRead, Five, Begins, ContentOf, NameContent, TickContent};

use crate::keyword::{Keyword, keyword_of};
use crate::number::{reading, whole};
use crate::split::{Split, from_first, next_word, one_word, spoken_of};
use crate::word::line_of;
use cases::field::{Content, Entry};

/// The words of an entry.
#[derive(Clone, Copy)]
pub struct EntryWords<'a> {
    pub which: &'a [u8],
    pub begin: &'a [u8],
    pub end: &'a [u8],
    pub low: &'a [u8],
    pub high: &'a [u8],
}

/// Whether the line has no words.
pub fn is_silent(line: &[u8]) -> bool
    ensures { Decides result (Silent line.now) }
{
    next_word(spoken_of(line)).is_none()
}

fn name_of<'a>(bytes: &'a [u8]) -> Option<Content<'a>>
    ensures { NameContent bytes.now result }
{
    Some(Content::Name(one_word(bytes)?))
}

fn tick_of<'a>(bytes: &'a [u8]) -> Option<Content<'a>>
    ensures { TickContent bytes.now result }
{
    Some(Content::Tick(whole(one_word(bytes)?)?))
}

/// The five words, if there are five.
// Each is named as it is cut.
pub fn five_words<'a>(words: &'a [u8]) -> Option<EntryWords<'a>>
    ensures { Five words.now result }
{
    let one = next_word(words)?;
    let two = next_word(one.rest)?;
    let three = next_word(two.rest)?;
    let four = next_word(three.rest)?;
    let five = next_word(four.rest)?;
    let None = next_word(five.rest) else {
        return None;
    };
    Some(EntryWords {
        which: one.front,
        begin: two.front,
        end: three.front,
        low: four.front,
        high: five.front,
    })
}

// The entry that the words write.
fn entry_of(names: &[&[u8]], words: &[u8]) -> Option<Entry>
    ensures { ValueRead (WordsEnter (texts names.now) words.now) result }
{
    let five = five_words(words)?;
    let line = line_of(names, five.which)?;
    let from = whole(five.begin)?;
    let to = whole(five.end)?;
    let lower = reading(five.low)?;
    let upper = reading(five.high)?;
    Some(Entry {
        line,
        from,
        to,
        lower,
        upper,
    })
}

// What a line says behind lines that gave these names, by its first word and what stands behind that.
pub(crate) fn content_of<'a>(names: &[&[u8]], split: Split<'a>) -> Option<Content<'a>>
    ensures { (line : List ℕ) → Begins (spoken line) split.entry.front.now split.entry.rest.now → ContentOf (texts names.now) line result }
{
    match keyword_of(split.front)? {
        Keyword::Line => name_of(split.rest),
        Keyword::Rule => Some(Content::Rule(from_first(split.rest))),
        Keyword::Enter => Some(Content::Entry(entry_of(names, split.rest)?)),
        Keyword::Tick => tick_of(split.rest),
    }
}
