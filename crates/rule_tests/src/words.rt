// Texts at the edges of the words, each with its tokens or with the place at which there is none.
use crate::tally::{Run, Tally};
use std::io;
use tokens::fault::TokenFault;
use tokens::lexer::tokenize;
use tokens::token::Token;

// The third is taken, and the last does not count.
static NAMES: [&[u8]; 17] = [
    b"hot", b"flow", b"hot", b"x", b"x", b"x", b"x", b"x", b"x", b"x", b"x", b"x", b"x", b"x",
    b"x", b"p", b"q",
];

// A text, its tokens and their places.
pub(crate) struct Words {
    text: &'static str,
    tokens: &'static [Token],
    places: &'static [usize],
}

impl Run for Words {
    fn run(&self, rt: &HostRuntime, tally: &mut Tally) -> io::Result<()> {
        let label = format!(in rt.alloc(); "{:?}", self.text)?;
        match tokenize(self.text.as_bytes(), &NAMES) {
            Ok(found) => {
                let right = found.tokens() == self.tokens && found.places() == self.places;
                let count = found.tokens().len();
                tally.note(rt, label, format_args!("{count} tokens"), right)
            }
            Err(_) => tally.note(rt, label, "a fault", false),
        }
    }
}

// A text, and the place at which no token begins.
pub(crate) struct BadWord {
    text: &'static str,
    place: usize,
}

impl Run for BadWord {
    fn run(&self, rt: &HostRuntime, tally: &mut Tally) -> io::Result<()> {
        let label = format!(in rt.alloc(); "{:?}", self.text)?;
        match tokenize(self.text.as_bytes(), &NAMES) {
            Ok(_) => tally.note(rt, label, "no fault", false),
            Err(TokenFault::TooLong) => tally.note(rt, label, "too long", false),
            Err(TokenFault::Malformed { at }) => {
                tally.note(
                    rt,
                    label,
                    format_args!("no token at {at}"),
                    at == self.place,
                )
            }
        }
    }
}

pub(crate) static WORDS: [Words; 7] = [
    Words {
        text: "",
        tokens: &[],
        places: &[],
    },
    Words {
        text: " 12ab\n",
        tokens: &[Token::Number(12), Token::Name(None)],
        places: &[1, 3],
    },
    Words {
        text: "hot>=-0",
        tokens: &[
            Token::Name(Some(0)),
            Token::AtLeast,
            Token::Minus,
            Token::Number(0),
        ],
        places: &[0, 3, 5, 6],
    },
    Words {
        text: "flow <= 999999999",
        tokens: &[
            Token::Name(Some(1)),
            Token::AtMost,
            Token::Number(999999999),
        ],
        places: &[0, 5, 8],
    },
    Words {
        text: "G[0,3]Fa1234567",
        tokens: &[
            Token::Always,
            Token::Left,
            Token::Number(0),
            Token::Comma,
            Token::Number(3),
            Token::Right,
            Token::Eventually,
            Token::Name(None),
        ],
        places: &[0, 1, 2, 3, 4, 5, 6, 7],
    },
    Words {
        text: ")U3|&!(",
        tokens: &[
            Token::Close,
            Token::Until,
            Token::Number(3),
            Token::Or,
            Token::And,
            Token::Not,
            Token::Open,
        ],
        places: &[0, 1, 2, 3, 4, 5, 6],
    },
    Words {
        text: "x p q",
        tokens: &[
            Token::Name(Some(3)),
            Token::Name(Some(15)),
            Token::Name(None),
        ],
        places: &[0, 2, 4],
    },
];

pub(crate) static FAULTS: [BadWord; 8] = [
    BadWord {
        text: "a23456789",
        place: 0,
    },
    BadWord {
        text: " 1234567890",
        place: 1,
    },
    BadWord {
        text: "a>=007",
        place: 3,
    },
    BadWord {
        text: "a >",
        place: 2,
    },
    BadWord {
        text: "a> =1",
        place: 1,
    },
    BadWord {
        text: "a @ b",
        place: 2,
    },
    BadWord {
        text: "G[0,007]a>=1",
        place: 4,
    },
    BadWord {
        text: "x&temperature",
        place: 2,
    },
];
