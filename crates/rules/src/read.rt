// Reading a rule text.
ghost use Rattle.std.specs.Prelude.{◌≡◌};
ghost use Rattle.tokens.specs.Answers.{texts};
ghost use Rattle.rules.specs.Rows.{Sound, reach};
ghost use Rattle.rules.specs.Grammar.{Derives, Phrase, expr};
ghost use Rattle.rules.specs.Texts.{table_of, answer_of, place_in, checked, Parsed, Answered, Derived};

use crate::checks::{out_of_bounds, unknown_name};
use crate::fault::RuleFault;
use crate::reach::reach_of;
use crate::readers::Source;
use crate::row::Row;
use crate::rule::Rule;
use crate::table::Table;
use tokens::lexer::tokenize;

// No rule has more rows, or looks further ahead.
const ROWS: usize = 64;

const REACH: u64 = 500_000_000;

// Where the tokens stand in their text, and where it ends.
#[derive(Clone, Copy)]
struct Places<'a> {
    places: &'a [usize],
    end: usize,
}

impl Places<'_> {
    // The byte of a token, or the end of the text behind the last.
    fn byte_of(&self, token: usize) -> usize
        ensures { result ≡ place_in self.now.places.now self.now.end token }
    {
        self.places.get(token).copied().unwrap_or(self.end)
    }
}

// The checks behind the grammar, each over the whole text before the next.
fn check(source: &Source, places: &Places, table: Table) -> Result<Rule, RuleFault>
    requires { Derived source.now.tokens.now table }
    ensures { (p : Phrase expr) → Derives source.now.tokens.now p → answer_of result ≡ checked (place_in places.now.places.now places.now.end) p }
{
    if let Some(token) = unknown_name(source.tokens) {
        return Err(RuleFault::UnknownName {
            at: places.byte_of(token),
        });
    }
    if let Some(token) = out_of_bounds(source.tokens) {
        return Err(RuleFault::OutOfBounds {
            at: places.byte_of(token),
        });
    }
    if let Some(token) = table.deep {
        return Err(RuleFault::TooDeep {
            at: places.byte_of(token),
        });
    }
    if table.count > ROWS {
        return Err(RuleFault::TooManyRows);
    }
    if reach_of(&table.rows[0..table.count]) > REACH {
        return Err(RuleFault::TooFar);
    }
    Ok(Rule {
        rows: table.rows,
        count: table.count,
    })
}

fn of_tokens(source: &Source, places: &Places) -> Result<Rule, RuleFault>
    ensures { Parsed source.now.tokens.now (place_in places.now.places.now places.now.end) (answer_of result) }
{
    match source.derive() {
        Ok(table) => check(source, places, table),
        Err(stop) => Err(RuleFault::Grammar {
            at: places.byte_of(stop.at),
        }),
    }
}

impl Rule {
    // Reads a rule text over lines with these names; a 17th name and any behind it are not looked at, and where two are equal the earlier one counts.
    pub fn read(text: &[u8], names: &[&[u8]]) -> Result<Rule, RuleFault>
        ensures { Answered (texts names.now) text.now (answer_of result) }
    {
        if text.is_empty() {
            return Err(RuleFault::Empty);
        }
        let tokens = tokenize(text, names)?;
        let source = Source {
            tokens: tokens.tokens(),
        };
        let places = Places {
            places: tokens.places(),
            end: text.len(),
        };
        of_tokens(&source, &places)
    }

    // The rows; the last is the rule's.
    pub fn rows(&self) -> &[Row]
        ensures is { result.now ≡ table_of self.now }
        ensures sound { Sound result.now }
    {
        &self.rows[0..self.count]
    }

    // How many ticks ahead the rule looks.
    pub fn reach(&self) -> u32
        ensures { result ≡ reach (table_of self.now) }
    {
        reach_of(&self.rows[0..self.count]) as u32
    }
}
