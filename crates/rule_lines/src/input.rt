// The input: names on the first line, and behind it the rule text.
ghost use Rattle.std.specs.Prelude.{◌≡◌, ℕ, List, [], ◌∷◌, ◌++◌, map};
ghost use Rattle.rules.specs.Texts.{Answered, answer_of};
ghost use Rattle.rule_lines.specs.Lines.{names_in, text_in};
ghost use Rattle.rule_lines.specs.Kept.{held, Heard};

use crate::front::Front;
use crate::names::Names;
use rules::fault::RuleFault;
use rules::rule::Rule;

// One byte more than a rule text may have.
const TEXT_BYTES: usize = 1025;

const LINE_END: u8 = b'\n';

// What of the bytes so far can matter.
#[derive(Clone, Copy)]
pub struct Input {
    names: Names,
    text: Front<TEXT_BYTES>,
    in_text: bool,
}

impl Input {
    // Nothing heard.
    pub fn new() -> Input
        ensures { Heard [] result }
    {
        Input {
            names: Names::new(),
            text: Front::new(),
            in_text: false,
        }
    }

    // Takes the next byte.
    pub fn hear(&mut self, byte: u8)
        ensures { (bytes : List ℕ) → Heard bytes self.old → Heard (bytes ++ byte ∷ []) self.new }
    {
        if self.in_text {
            self.text.push(byte);
        } else if byte == LINE_END {
            self.in_text = true;
        } else {
            self.names.hear(byte);
        }
    }

    // Takes the next bytes, from the left.
    pub fn hear_all(&mut self, more: &[u8])
        ensures { (bytes : List ℕ) → Heard bytes self.old → Heard (bytes ++ more.now) self.new }
    {
        for byte in more {
            self.hear(*byte);
        }
    }

    // The answer to the text, over the names.
    pub fn answer(&self) -> Result<Rule, RuleFault>
        ensures kept { Answered (map held self.now.names.parts) (held self.now.text) (answer_of result) }
        ensures whole { (bytes : List ℕ) → Heard bytes self.now → Answered (names_in bytes) (text_in bytes) (answer_of result) }
    {
        let names = self.names.list();
        Rule::read(self.text.bytes(), &names)
    }
}

// The answer to a whole input.
pub fn answer_to(input: &[u8]) -> Result<Rule, RuleFault>
    ensures { Answered (names_in input.now) (text_in input.now) (answer_of result) }
{
    let mut heard = Input::new();
    heard.hear_all(input);
    heard.answer()
}
