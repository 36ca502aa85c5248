// Reading a script line by line.
ghost use Rattle.std.specs.Prelude.{◌≤◌};

use crate::line::{Ask, ask_of};
use crate::script::Script;
use crate::step::{GradeKind, Step};
use arrayvec::ArrayVec;
use case_text::line::is_silent;
use cases::names::{NAMES, admits};
use rules::rule::Rule;
use scripts::call::Portion;
use std::alloc::{AllocError, Global};

// How many cells are lent before a script says it.
const FIRST_PORTION: Portion = Portion {
    rows: 1024,
    wants: 1024,
    marks: 256,
};

// What was read so far.
#[derive(Drop)]
pub(crate) struct Reader<'t> {
    names: ArrayVec<&'t [u8], NAMES>,
    rules: Vec<Rule>,
    steps: Vec<Step>,
    // How many cells are lent from here on.
    portion: Portion,
    // The kind that was judged or marked last.
    kind: GradeKind,
}

impl<'t> Reader<'t> {
    pub(crate) fn new(heap: Global) -> Reader<'t> {
        Reader {
            names: ArrayVec::new(),
            rules: Vec::new(heap),
            steps: Vec::new(heap),
            portion: FIRST_PORTION,
            kind: GradeKind::Truth,
        }
    }

    // Takes the name of one more line, if it may stand here.
    fn take_name(&mut self, word: &'t [u8]) -> bool {
        if !self.steps.is_empty() || !admits(self.names.as_slice(), word) {
            return false;
        }
        self.names.try_push(word).is_ok()
    }

    fn read_rule(&mut self, text: &[u8]) -> Result<Step, AllocError> {
        match Rule::read(text, self.names.as_slice()) {
            Ok(rule) => {
                self.rules.push(rule)?;
                Ok(Step::RuleRead)
            }
            Err(fault) => Ok(Step::RuleRefused(fault)),
        }
    }

    // Judging by the last rule that was read.
    fn judge(&mut self, kind: GradeKind, tick: u32) -> Step {
        let Some(rule) = self.rules.len().checked_sub(1) else {
            return Step::NoRule;
        };
        self.kind = kind;
        Step::Judge {
            kind,
            rule,
            tick,
            rows: self.portion.rows,
        }
    }

    // Marking by the last rule that was read.
    fn mark(&mut self, kind: GradeKind, tick: u32) -> Step {
        let Some(rule) = self.rules.len().checked_sub(1) else {
            return Step::NoRule;
        };
        self.kind = kind;
        Step::Mark {
            kind,
            rule,
            tick,
            portion: self.portion,
        }
    }

    fn set_cells(&mut self, portion: Portion) -> Step {
        self.portion = portion;
        Step::CellsSet
    }

    // Takes one line, and answers whether it is one of a script's.
    pub(crate) fn take(&mut self, line: &'t [u8]) -> Result<bool, AllocError> {
        if is_silent(line) {
            return Ok(true);
        }
        let Some(ask) = ask_of(self.names.as_slice(), line) else {
            return Ok(false);
        };
        let step = match ask {
            Ask::Name(word) => return Ok(self.take_name(word)),
            Ask::Rule(text) => self.read_rule(text)?,
            Ask::Enter(entry) => Step::Enter(entry),
            Ask::Known { line } => Step::Known { line },
            Ask::Tally => Step::Tally,
            Ask::Seal => Step::Seal,
            Ask::Cells(portion) => self.set_cells(portion),
            Ask::Judge { kind, tick } => self.judge(kind, tick),
            Ask::Mark { kind, tick } => self.mark(kind, tick),
            Ask::Show { count } => Step::Show {
                kind: self.kind,
                count,
            },
            Ask::Wants { count } => Step::Wants { count },
        };
        self.steps.push(step)?;
        Ok(true)
    }

    // What was read.
    pub(crate) fn script(self) -> Script
        ensures { result.lines ≤ 16 }
    {
        Script {
            lines: self.names.len(),
            rules: self.rules,
            steps: self.steps,
        }
    }
}
