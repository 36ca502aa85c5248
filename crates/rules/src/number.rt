// The numbers and places of the refusals.
ghost use Rattle.std.specs.Prelude.{◌≡◌};
ghost use Rattle.rules.specs.Faults.{rule_fault_number, fault_place};

use crate::fault::RuleFault;
use tokens::fault::TokenFault;

impl RuleFault {
    // 12 to 19, by which users know the refusal.
    pub fn number(self) -> u8
        ensures { result ≡ rule_fault_number self }
    {
        match self {
            RuleFault::Empty | RuleFault::Token(TokenFault::TooLong) => 12,
            RuleFault::Token(TokenFault::Malformed { .. }) => 13,
            RuleFault::Grammar { .. } => 14,
            RuleFault::UnknownName { .. } => 15,
            RuleFault::OutOfBounds { .. } => 16,
            RuleFault::TooDeep { .. } => 17,
            RuleFault::TooManyRows => 18,
            RuleFault::TooFar => 19,
        }
    }

    // The byte of the text that it is about, 0 where it is about the whole text.
    pub fn place(self) -> usize
        ensures { result ≡ fault_place self }
    {
        match self {
            RuleFault::Token(TokenFault::Malformed { at })
            | RuleFault::Grammar { at }
            | RuleFault::UnknownName { at }
            | RuleFault::OutOfBounds { at }
            | RuleFault::TooDeep { at } => at,
            RuleFault::Empty
            | RuleFault::Token(TokenFault::TooLong)
            | RuleFault::TooManyRows
            | RuleFault::TooFar => 0,
        }
    }
}
