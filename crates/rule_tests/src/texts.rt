// Rule texts, and those that are rules, at the edges of their limits.
ghost use Rattle.std.specs.Prelude.{◌≡◌, IfOk, string_bytes};
ghost use Rattle.rule_tests.specs.Texts.{text_repeated, text_of};

use crate::outcome::Outcome;
use crate::outcome::Outcome::Read;
use crate::tally::{Run, Tally};
use rules::rule::Rule;
use std::alloc::{AllocError, Global};
use std::{fmt, io};

// A text, or one that is put together of pieces.
pub(crate) enum Text {
    Plain(&'static str),
    // The first piece so many times, then the second.
    Led(usize, &'static str, &'static str),
    // The first piece, then the second so many times.
    Trailed(&'static str, usize, &'static str),
    // The first piece so many times, the second, and the third as many times.
    Nested(usize, &'static str, &'static str, &'static str),
}

use Text::{Led, Nested, Plain, Trailed};

// A front so many times, a middle, and a back so many times.
fn put_together(
    heap: Global,
    fronts: usize,
    front: &str,
    middle: &str,
    backs: usize,
    back: &str,
) -> Result<String, AllocError>
    ensures { IfOk result (λ s. string_bytes s ≡ text_repeated fronts front.now middle.now backs back.now) }
{
    let mut text = front.repeat(heap, fronts)?;
    text.push_str(middle)?;
    let backs = back.repeat(heap, backs)?;
    text.push_str(&backs)?;
    Ok(text)
}

impl Text {
    fn written_out(&self, heap: Global) -> Result<String, AllocError>
        ensures { IfOk result (λ s. string_bytes s ≡ text_of self.now) }
    {
        match self {
            Plain(text) => put_together(heap, 0, "", text, 0, ""),
            Led(times, piece, last) => put_together(heap, *times, piece, last, 0, ""),
            Trailed(first, times, piece) => put_together(heap, 0, "", first, *times, piece),
            Nested(times, open, inner, close) => {
                put_together(heap, *times, open, inner, *times, close)
            }
        }
    }
}

impl fmt::Display for Text {
    fn fmt<W: fmt::Write>(&self, f: &mut fmt::Formatter<W>) -> fmt::Result {
        match self {
            Plain(text) => write!(f, "{text:?}"),
            Led(times, piece, last) => write!(f, "{times} times {piece:?}, {last:?}"),
            Trailed(first, times, piece) => write!(f, "{first:?}, {times} times {piece:?}"),
            Nested(times, open, inner, close) => {
                write!(
                    f,
                    "{times} times {open:?}, {inner:?}, {times} times {close:?}"
                )
            }
        }
    }
}

// A text, and what it is answered.
pub(crate) struct Case(pub(crate) Text, pub(crate) Outcome);

// Seventeen names: the fourth is too long for one, the fifth is taken, the sixth is empty, and the last does not count.
static NAMES: [&[u8]; 17] = [
    b"a",
    b"b",
    b"abcdefgh",
    b"abcdefghi",
    b"a",
    b"",
    b"x",
    b"x",
    b"x",
    b"x",
    b"x",
    b"x",
    b"x",
    b"x",
    b"x",
    b"p",
    b"q",
];

impl Run for Case {
    fn run(&self, rt: &HostRuntime, tally: &mut Tally) -> io::Result<()> {
        let text = self.0.written_out(rt.alloc())?;
        let found = Outcome::of(&Rule::read(text.as_bytes(), &NAMES));
        tally.note(rt, &self.0, found, found == self.1)
    }
}

pub(crate) static RULES: [Case; 26] = [
    // Words at their longest, and the last name that counts.
    Case(Plain("a>=0"), Read { rows: 1, reach: 0 }),
    Case(Plain("a>=-0"), Read { rows: 1, reach: 0 }),
    Case(Plain("abcdefgh<=1"), Read { rows: 1, reach: 0 }),
    Case(Plain("p>=1"), Read { rows: 1, reach: 0 }),
    // Limits and windows.
    Case(Plain("a>=500000"), Read { rows: 1, reach: 0 }),
    Case(Plain("a<=-500000"), Read { rows: 1, reach: 0 }),
    Case(Plain("F[3,3]a>=1"), Read { rows: 2, reach: 3 }),
    Case(
        Plain("F[0,500000000]a>=1"),
        Read {
            rows: 2,
            reach: 500_000_000,
        },
    ),
    Case(
        Plain("G[500000000,500000000]a>=1"),
        Read {
            rows: 2,
            reach: 500_000_000,
        },
    ),
    Case(
        Plain("(a>=1U[0,500000000]b>=2)"),
        Read {
            rows: 3,
            reach: 500_000_000,
        },
    ),
    // Blanks, up to 1,024 bytes.
    Case(Plain(" \n a\n>= - 1 \n"), Read { rows: 1, reach: 0 }),
    Case(Led(1020, " ", "a>=1"), Read { rows: 1, reach: 0 }),
    Case(Trailed("a>=1", 1020, "\n"), Read { rows: 1, reach: 0 }),
    // Sixteen deep, by each token that makes depth.
    Case(Led(16, "!", "a>=1"), Read { rows: 17, reach: 0 }),
    Case(Led(16, "G[0,0]", "a>=1"), Read { rows: 17, reach: 0 }),
    Case(
        Led(16, "F[0,1]", "a>=1"),
        Read {
            rows: 17,
            reach: 16,
        },
    ),
    Case(Nested(16, "(", "a>=1", ")"), Read { rows: 1, reach: 0 }),
    Case(
        Nested(16, "(a>=1U[0,2]", "b>=2", ")"),
        Read {
            rows: 33,
            reach: 32,
        },
    ),
    Case(Led(20, "(a>=1)&", "b>=2"), Read { rows: 41, reach: 0 }),
    // Rows.
    Case(Plain("G[0,3](a<=0|b>=1800)"), Read { rows: 4, reach: 3 }),
    Case(Plain("a>=1|b>=2&a<=3|!b<=4"), Read { rows: 8, reach: 0 }),
    Case(Trailed("a>=1", 31, "&a>=1"), Read { rows: 63, reach: 0 }),
    Case(Trailed("!a>=1", 31, "&a>=1"), Read { rows: 64, reach: 0 }),
    Case(Trailed("!a>=1", 31, "|a>=1"), Read { rows: 64, reach: 0 }),
    // Reach is added along a path, and the greater of two paths counts.
    Case(
        Led(2, "F[0,250000000]", "a>=1"),
        Read {
            rows: 3,
            reach: 500_000_000,
        },
    ),
    Case(
        Plain("F[0,500000000]a>=1&G[0,500000000]b>=1"),
        Read {
            rows: 5,
            reach: 500_000_000,
        },
    ),
];
