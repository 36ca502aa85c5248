// The names on the first line of the input.
ghost use Rattle.std.specs.Prelude.{◌≡◌, ℕ, List, [], ◌∷◌, ◌++◌, map};
ghost use Rattle.tokens.specs.Answers.{texts};
ghost use Rattle.rule_lines.specs.Kept.{held, NamesKept};

use crate::front::Front;

// Only so many names count, and a name has no more than 8 bytes: of a longer part the first 9 tell that it is none.
const NAMES: usize = 16;

const PART_BYTES: usize = 9;

const SPACE: u8 = b' ';

// The first 16 parts of a line, each cut; part `ended` goes on, if it is one of the 16. An array, since an input can be copied.
#[derive(Clone, Copy)]
pub(crate) struct Names {
    parts: [Front<PART_BYTES>; NAMES],
    ended: usize,
}

impl Names {
    pub(crate) fn new() -> Names
        ensures { NamesKept [] result }
    {
        Names {
            parts: [Front::new(); NAMES],
            ended: 0,
        }
    }

    // Takes one more byte of the line.
    pub(crate) fn hear(&mut self, byte: u8)
        ensures { (line : List ℕ) → NamesKept line self.old → NamesKept (line ++ byte ∷ []) self.new }
    {
        if self.ended >= NAMES {
            return;
        }
        if byte == SPACE {
            self.ended += 1;
        } else {
            self.parts[self.ended].push(byte);
        }
    }

    pub(crate) fn list<'a>(&'a self) -> [&'a [u8]; NAMES]
        ensures { texts result ≡ map held self.now.parts }
    {
        self.parts.each_ref().map(|part| part.bytes())
    }
}
