// The steps of a script.
ghost use Rattle.script_lines.specs.Makes.{CallOf};

use cases::field::Entry;
use rules::fault::RuleFault;
use rules::rule::Rule;
use scripts::call::{Call, Portion};

/// The most row cells of each kind that a script may lend, or show.
pub const MOST_ROWS: u32 = 4096;

/// The most want cells that a script may lend, or show.
pub const MOST_WANTS: u32 = 4096;

/// The most mark cells that a script may lend.
pub const MOST_MARKS: u32 = 1024;

/// A kind of grade.
#[derive(Clone, Copy, PartialEq, Eq)]
pub enum GradeKind {
    Truth,
    Margin,
}

/// What a line of a script comes to. Rules go by their number, from 0, among those of the script that were read; ticks are milliseconds.
#[derive(Clone, Copy)]
pub enum Step {
    Enter(Entry),
    Known {
        line: u8,
    },
    Tally,
    Seal,
    Judge {
        kind: GradeKind,
        rule: usize,
        tick: u32,
        rows: usize,
    },
    Mark {
        kind: GradeKind,
        rule: usize,
        tick: u32,
        portion: Portion,
    },
    /// A rule was read, and later lines go by it.
    RuleRead,
    /// A text is no rule, and later lines go by the rule before it.
    RuleRefused(RuleFault),
    /// Later lines are lent other numbers of cells.
    CellsSet,
    /// A rule should be judged or marked, and none was read yet.
    NoRule,
    /// The first so many row cells of the kind.
    Show {
        kind: GradeKind,
        count: usize,
    },
    /// The first so many want cells.
    Wants {
        count: usize,
    },
}

impl Step {
    /// The call on a job that it is, over the script's rules, if it is one.
    pub fn call<'r>(self, rules: &'r [Rule]) -> Option<Call<'r>>
        ensures { CallOf rules.now self result }
    {
        match self {
            Step::Enter(entry) => Some(Call::Enter {
                line: entry.line,
                from: entry.from,
                to: entry.to,
                lower: entry.lower,
                upper: entry.upper,
            }),
            Step::Known { line } => Some(Call::Known { line }),
            Step::Tally => Some(Call::Tally),
            Step::Seal => Some(Call::Seal),
            Step::Judge {
                kind: GradeKind::Truth,
                rule,
                tick,
                rows,
            } => Some(Call::JudgeTruth {
                rule: rules.get(rule)?,
                tick,
                rows,
            }),
            Step::Judge {
                kind: GradeKind::Margin,
                rule,
                tick,
                rows,
            } => Some(Call::JudgeMargin {
                rule: rules.get(rule)?,
                tick,
                rows,
            }),
            Step::Mark {
                kind: GradeKind::Truth,
                rule,
                tick,
                portion,
            } => Some(Call::MarkTruth {
                rule: rules.get(rule)?,
                tick,
                portion,
            }),
            Step::Mark {
                kind: GradeKind::Margin,
                rule,
                tick,
                portion,
            } => Some(Call::MarkMargin {
                rule: rules.get(rule)?,
                tick,
                portion,
            }),
            Step::RuleRead
            | Step::RuleRefused(_)
            | Step::CellsSet
            | Step::NoRule
            | Step::Show { .. }
            | Step::Wants { .. } => None,
        }
    }
}
