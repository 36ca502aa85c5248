// Scripts as a whole.
ghost use Rattle.std.specs.Prelude.{◌≤◌, IfOk, MatchResult};
ghost use Rattle.script_lines.specs.Faults.{CountsFromOne};
ghost use Rattle.script_lines.specs.Makes.{AreCalls};

use crate::fault::ScriptFault;
use crate::reader::Reader;
use crate::step::Step;
use rules::rule::Rule;
use scripts::call::Call;
use std::alloc::{AllocError, Global};

const LINE_END: u8 = b'\n';

/// A script that was read: how many lines the job is opened for, the rules in their order, and the steps in theirs.
#[derive(Drop)]
pub struct Script {
    pub lines: usize,
    pub rules: Vec<Rule>,
    pub steps: Vec<Step>,
}

impl Script {
    /// Reads a text line by line, or names the first line that is none of a script's.
    pub fn read(text: &[u8], heap: Global) -> Result<Script, ScriptFault>
        ensures { MatchResult result (λ script. script.lines ≤ 16) CountsFromOne }
    {
        let mut reader = Reader::new(heap);
        for (index, line) in text.split(|byte| *byte == LINE_END).enumerate() {
            if !reader.take(line)? {
                return Err(ScriptFault::BadLine { number: index + 1 });
            }
        }
        Ok(reader.script())
    }

    /// The calls of the steps, in their order.
    pub fn calls<'r>(&'r self, heap: Global) -> Result<Vec<Call<'r>>, AllocError>
        ensures { IfOk result (λ calls. AreCalls self.now.rules.items self.now.steps.items calls.items) }
    {
        let mut calls = Vec::new(heap);
        for step in self.steps.as_slice() {
            if let Some(call) = step.call(self.rules.as_slice()) {
                calls.push(call)?;
            }
        }
        Ok(calls)
    }
}
