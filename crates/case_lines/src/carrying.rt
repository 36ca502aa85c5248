// Carrying out one field, with what it prints as values.
ghost use Rattle.std.specs.Prelude.{◌≡◌, List};
ghost use Rattle.meaning.specs.declared.mark.Mark.{Mark};
ghost use Rattle.rules.specs.Texts.{table_of};
ghost use Rattle.jobs.specs.Jobs.{state_of, SameLoan};
ghost use Rattle.cases.specs.Steps.{call_item};
ghost use Rattle.case_lines.specs.Calls.{CarriesEntry};
ghost use Rattle.lent.specs.Holding.{contents, counts, SameLoans};
ghost use Rattle.case_lines.specs.Listings.{Ticks, Does};
ghost use Rattle.case_lines.specs.Leaves.{TickLeaves, FieldLeaves, CarriedOn};
ghost use Rattle.case_lines.specs.PrintedTexts.{maybe_printed, printed_text};

use crate::line::Line;
use crate::printed::Printed;
use crate::ticking::tell;
use cases::call::{Call, Step};
use cases::field::Entry;
use jobs::job::Job;
use lent::cells::Cells;
use meaning::outcome::Outcome;
use rules::rule::Rule;

// Enters a reading; only a refusal is told.
fn carry_entry<'a>(job: &mut Job<'a>, field: usize, entry: Entry) -> Option<Printed>
    ensures prints { (cells : List Mark) → CarriesEntry field entry (state_of job.old) (state_of job.new) (maybe_printed result cells) }
    ensures pieces { CarriedOn job.old job.new }
    ensures loan { SameLoan job.old job.new }
{
    match job.enter(entry.line, entry.from, entry.to, entry.lower, entry.upper) {
        Ok(()) => None,
        Err(fault) => Some(Printed {
            line: Line::Refused {
                number: fault.number(),
                field,
                byte: None,
            },
            marks: 0,
        }),
    }
}

// The verdict at the tick with its margin and its marks, or the first refusal on the way to them.
fn carry_tick<'a>(
    job: &Job<'a>,
    rule: &Rule,
    field: usize,
    tick: u32,
    cells: &mut Cells<'_>,
) -> Printed
    ensures prints { Ticks (counts cells.old) (table_of rule.now) field tick (state_of job.now) (printed_text result cells.new.marks.now) }
    ensures kept { counts cells.new ≡ counts cells.old }
    ensures leaves { TickLeaves (table_of rule.now) (state_of job.now) tick (contents cells.old) (contents cells.new) }
    ensures loans { SameLoans cells.old cells.new }
{
    match tell(cells, job, rule, tick) {
        Ok(told) => Printed {
            line: Line::Verdict {
                tick,
                outcome: Outcome::of(told.verdict),
                lower: told.margin.lower.number(),
                upper: told.margin.upper.number(),
                marks: told.marks,
            },
            marks: told.marks,
        },
        Err(fault) => Printed {
            line: Line::Refused {
                number: fault.number(),
                field,
                byte: None,
            },
            marks: 0,
        },
    }
}

// Carries out one field, and answers what it prints.
pub(crate) fn carry_step<'a>(
    job: &mut Job<'a>,
    rule: &Rule,
    step: Step,
    cells: &mut Cells<'_>,
) -> Option<Printed>
    ensures does { Does (counts cells.old) (table_of rule.now) step.field (call_item step.call) (state_of job.old) (state_of job.new) (maybe_printed result cells.new.marks.now) }
    ensures kept { counts cells.new ≡ counts cells.old }
    ensures leaves { FieldLeaves (table_of rule.now) (call_item step.call) (state_of job.old) (state_of job.new) (contents cells.old) (contents cells.new) }
    ensures pieces { CarriedOn job.old job.new }
    ensures loan { SameLoan job.old job.new }
    ensures loans { SameLoans cells.old cells.new }
{
    match step.call {
        Call::Enter(entry) => carry_entry(job, step.field, entry),
        Call::Judge { tick } => Some(carry_tick(job, rule, step.field, tick, cells)),
    }
}
