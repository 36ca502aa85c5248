// Reading the fields up to the rule.
ghost use Rattle.std.specs.Prelude.{[]};
ghost use Rattle.tokens.specs.Answers.{texts};
ghost use Rattle.cases.specs.Readers.{left_of, next_of, AskedTo};
ghost use Rattle.cases.specs.Headings.{Opens, Heads, NeededField, heading_reply, last_field};

use crate::fault::{CaseFault, CaseRefusal};
use crate::field::{Content, Field};
use crate::heading::Heading;
use crate::names::{NAMES, admits};
use crate::reader::CaseReader;
use arrayvec::ArrayVec;
use rules::rule::Rule;

// The rule, if the field is the rule's, or nothing, if it is one more name; other fields may not stand here.
fn head(names: &[&[u8]], field: Field<'_>) -> Result<Option<Rule>, CaseFault>
    ensures { Heads (texts names.now) field.entry.tag field.entry.bytes.now result }
{
    match field.content()? {
        Content::Name(word) if admits(names, word) => Ok(None),
        Content::Name(_) => Err(CaseFault::Misplaced),
        Content::Rule(_) if names.is_empty() => Err(CaseFault::Misplaced),
        Content::Rule(text) => Ok(Some(Rule::read(text, names)?)),
        Content::Entry(_) | Content::Tick(_) => Err(CaseFault::Misplaced),
    }
}

// The next field, where one has to follow; without one the reader stays where it is.
fn wanted<'a>(reader: &mut CaseReader<'a>) -> Result<Field<'a>, CaseRefusal>
    ensures { NeededField reader.old result reader.new }
{
    let next = reader.next()?;
    next.ok_or(CaseFault::Misplaced.at(reader.number + 1))
}

impl<'a> CaseReader<'a> {
    // Reads names and the rule, from the place where the reader stands. It stands behind the rule then, or behind the field that is refused; where
    // that field is missing or cut short, before it.
    pub fn heading(&mut self) -> Result<Heading, CaseRefusal>
        ensures answer { Opens (next_of self.old) [] (left_of self.old) (heading_reply result self.new) }
        ensures left { AskedTo (last_field result self.new) self.old self.new }
    {
        let mut names: ArrayVec<&'a [u8], NAMES> = ArrayVec::new();
        // Field by field until the rule: there is no list to go over.
        loop {
            let field = wanted(self)?;
            let found = head(names.as_slice(), field).map_err(|fault| fault.at(field.number))?;
            if let Some(rule) = found {
                return Ok(Heading {
                    lines: names.len(),
                    rule,
                });
            }
            names.push(field.bytes);
        }
    }
}
