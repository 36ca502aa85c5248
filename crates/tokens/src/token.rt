// The tokens of a rule text.

// A token; a name is known by the line that has it, and a number by its value.
#[derive(Clone, Copy, PartialEq, Eq, Default)]
pub enum Token {
    // What unused places of a list of tokens hold.
    #[default]
    Or,
    And,
    Not,
    Open,
    Close,
    Left,
    Right,
    Comma,
    Minus,
    Always,
    Eventually,
    Until,
    AtLeast,
    AtMost,
    Name(Option<u8>),
    Number(u32),
}
