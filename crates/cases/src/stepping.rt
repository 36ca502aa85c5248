// Reading the fields behind the rule.
ghost use Rattle.cases.specs.Readers.{left_of, next_of, Asked};
ghost use Rattle.cases.specs.Steps.{Called, Steps, step_reply};

use crate::call::{Call, Step};
use crate::fault::{CaseFault, CaseRefusal};
use crate::field::{Content, Field};
use crate::reader::CaseReader;

// The call, if the field is an entry or a tick.
fn call_of(field: Field<'_>) -> Result<Call, CaseFault>
    ensures { Called field.entry.tag field.entry.bytes.now result }
{
    match field.content()? {
        Content::Entry(entry) => Ok(Call::Enter(entry)),
        Content::Tick(tick) => Ok(Call::Judge { tick }),
        Content::Name(_) | Content::Rule(_) => Err(CaseFault::Misplaced),
    }
}

impl<'a> CaseReader<'a> {
    // The next call, if there is one. A field that is refused is behind the reader, unless it is cut short.
    pub fn step(&mut self) -> Result<Option<Step>, CaseRefusal>
        ensures answer { Steps (next_of self.old) (left_of self.old) (step_reply result self.new) }
        ensures left { Asked self.old self.new }
    {
        let Some(field) = self.next()? else {
            return Ok(None);
        };
        let call = call_of(field).map_err(|fault| fault.at(field.number))?;
        Ok(Some(Step {
            field: field.number,
            call,
        }))
    }
}
