// Packing a text into a case.
ghost use Rattle.std.specs.Prelude.{◌≡◌, Decides, MatchResult};
ghost use Rattle.tokens.specs.Answers.{texts};
ghost use Rattle.cases.specs.Contents.{item_of};
ghost use Rattle.case_text.specs.Sayings.{PlacedBy, MayCome, field_size, and_names, and_ruled};
ghost use Rattle.case_text.specs.Packs.{Packed, StopsAtLine};
ghost use Rattle.case_text.specs.Parts.{foregone, LineTaken, LineRefused};

use crate::fault::BadLine;
use crate::field::put;
use crate::line::content_of;
use crate::split::{next_word, spoken_of};
use arrayvec::ArrayVec;
use cases::field::{Content, ENTRY_BYTES, TICK_BYTES};
use cases::names::{NAMES, admits};
use cases::reader::CASE_BYTES;

const LINE_END: u8 = b'\n';

// A field's tag and its length.
const HEAD_BYTES: usize = 3;

// What stands before a line: names, whether the rule does, and the fields of the case.
#[derive(Drop)]
pub(crate) struct PackedSoFar<'a> {
    names: ArrayVec<&'a [u8], NAMES>,
    ruled: bool,
    case: ArrayVec<u8, CASE_BYTES>,
}

// The bytes of the field that says it.
fn field_bytes(content: Content<'_>) -> usize
    ensures { result ≡ field_size (item_of content.entry) }
{
    match content {
        Content::Name(word) => word.len() + HEAD_BYTES,
        Content::Rule(text) => text.len() + HEAD_BYTES,
        Content::Entry(_) => ENTRY_BYTES + HEAD_BYTES,
        Content::Tick(_) => TICK_BYTES + HEAD_BYTES,
    }
}

impl<'a> PackedSoFar<'a> {
    // Whether a case's field that says it may stand here.
    fn places(&self, content: Content<'_>) -> bool
        ensures { Decides result (PlacedBy self.now.ruled (texts self.now.names.items) (item_of content.entry)) }
    {
        match content {
            Content::Name(word) => !self.ruled && admits(self.names.as_slice(), word),
            Content::Rule(_) => !self.ruled && !self.names.is_empty(),
            Content::Entry(_) | Content::Tick(_) => self.ruled,
        }
    }

    // Whether what a line says may come here.
    fn lets(&self, content: Content<'_>) -> bool
        ensures { Decides result (MayCome (foregone self.now) (item_of content.entry)) }
    {
        self.places(content) && field_bytes(content) <= CASE_BYTES - self.case.len()
    }

    // Keeps what a line says that may stand here, and leaves the fields as they are.
    fn keep(&mut self, content: Content<'a>)
        requires { PlacedBy self.old.ruled (texts self.old.names.items) (item_of content) }
        ensures names { texts self.new.names.items ≡ and_names (texts self.old.names.items) (item_of content.entry) }
        ensures ruled { self.new.ruled ≡ and_ruled self.old.ruled (item_of content.entry) }
        ensures case { self.new.case.items ≡ self.old.case.items }
    {
        match content {
            Content::Name(word) => self.names.push(word),
            Content::Rule(_) => self.ruled = true,
            Content::Entry(_) | Content::Tick(_) => {}
        }
    }

    // Takes the line of this number: what it says goes behind the case's fields.
    fn take(&mut self, number: usize, line: &'a [u8]) -> Result<(), BadLine>
        ensures { MatchResult result (λ _. LineTaken (foregone self.old) self.old.case.items line.now (foregone self.new) self.new.case.items) (λ f. LineRefused (foregone self.old) line.now number f) }
    {
        let Some(split) = next_word(spoken_of(line)) else {
            return Ok(());
        };
        let Some(content) = content_of(self.names.as_slice(), split) else {
            return Err(BadLine { number });
        };
        if !self.lets(content) {
            return Err(BadLine { number });
        }
        put(&mut self.case, content);
        self.keep(content);
        Ok(())
    }
}

/// The bytes of the case that the text's lines write, field by field in their order, or the first bad line.
pub fn pack(text: &[u8]) -> Result<ArrayVec<u8, CASE_BYTES>, BadLine>
    ensures { MatchResult result (λ case. Packed text.now case.items) (λ f. StopsAtLine text.now f.number) }
{
    let mut before = PackedSoFar {
        names: ArrayVec::new(),
        ruled: false,
        case: ArrayVec::new(),
    };
    for (index, line) in text.split(|byte| *byte == LINE_END).enumerate() {
        before.take(index + 1, line)?;
    }
    Ok(before.case)
}
