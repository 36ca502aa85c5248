// Rule texts that are refused, each at its place.
use crate::outcome::Outcome::Refused;
use crate::texts::Case;
use crate::texts::Text::{Led, Nested, Plain, Trailed};
use rules::fault::RuleFault::{
    Empty, Grammar, OutOfBounds, Token, TooDeep, TooFar, TooManyRows, UnknownName,
};
use tokens::fault::TokenFault::{Malformed, TooLong};

pub(crate) static REFUSALS: [Case; 92] = [
    // The length.
    Case(Plain(""), Refused(Empty)),
    Case(Led(1021, " ", "a>=1"), Refused(Token(TooLong))),
    Case(Trailed("a>=1", 1021, " "), Refused(Token(TooLong))),
    Case(Led(1025, "@", ""), Refused(Token(TooLong))),
    // The words.
    Case(Plain("@"), Refused(Token(Malformed { at: 0 }))),
    Case(Led(1024, "@", ""), Refused(Token(Malformed { at: 0 }))),
    Case(Led(1023, " ", "@"), Refused(Token(Malformed { at: 1023 }))),
    Case(Plain("a>1"), Refused(Token(Malformed { at: 1 }))),
    Case(Plain("a>=1&b>"), Refused(Token(Malformed { at: 6 }))),
    Case(Plain("a> =1"), Refused(Token(Malformed { at: 1 }))),
    Case(Plain("a=1"), Refused(Token(Malformed { at: 1 }))),
    Case(Plain("a\t>=1"), Refused(Token(Malformed { at: 1 }))),
    Case(Plain("A>=1"), Refused(Token(Malformed { at: 0 }))),
    Case(Plain("é"), Refused(Token(Malformed { at: 0 }))),
    Case(Plain("abcdefghi>=1"), Refused(Token(Malformed { at: 0 }))),
    Case(Plain("a>=1000000000"), Refused(Token(Malformed { at: 3 }))),
    Case(Plain("a>=00"), Refused(Token(Malformed { at: 3 }))),
    Case(Plain("a>=-007"), Refused(Token(Malformed { at: 4 }))),
    Case(Plain("F[0,01]a>=1"), Refused(Token(Malformed { at: 4 }))),
    // A bad word late in the text goes before a grammar fault early in it.
    Case(Plain("a>=1&)&@"), Refused(Token(Malformed { at: 7 }))),
    Case(Led(65, "a>=1&", "@"), Refused(Token(Malformed { at: 325 }))),
    // The grammar: tests.
    Case(Plain(" "), Refused(Grammar { at: 1 })),
    Case(Led(1024, " ", ""), Refused(Grammar { at: 1024 })),
    Case(Plain(")"), Refused(Grammar { at: 0 })),
    Case(Plain("a"), Refused(Grammar { at: 1 })),
    Case(Plain("a>="), Refused(Grammar { at: 3 })),
    Case(Plain("a>=-"), Refused(Grammar { at: 4 })),
    Case(Plain("a>=--1"), Refused(Grammar { at: 4 })),
    Case(Plain("a>=b"), Refused(Grammar { at: 3 })),
    Case(Plain("1>=a"), Refused(Grammar { at: 0 })),
    Case(Plain("12ab"), Refused(Grammar { at: 0 })),
    Case(Plain("a>=12ab>=1"), Refused(Grammar { at: 5 })),
    Case(Plain("a<=1<=2"), Refused(Grammar { at: 4 })),
    // The grammar: joining and brackets.
    Case(Plain("a>=1&"), Refused(Grammar { at: 5 })),
    Case(Plain("a>=1& "), Refused(Grammar { at: 6 })),
    Case(Plain("a>=1||b>=2"), Refused(Grammar { at: 5 })),
    Case(Plain("a>=1 b>=2"), Refused(Grammar { at: 5 })),
    Case(Plain("a>=1)"), Refused(Grammar { at: 4 })),
    Case(Plain("(a>=1"), Refused(Grammar { at: 5 })),
    // The grammar: windows and until.
    Case(Plain("G a>=1"), Refused(Grammar { at: 2 })),
    Case(Plain("G[-1,3]a>=1"), Refused(Grammar { at: 2 })),
    Case(Plain("G[0 3]a>=1"), Refused(Grammar { at: 4 })),
    Case(Plain("G[0,3)a>=1"), Refused(Grammar { at: 5 })),
    Case(Plain("G[0,3]"), Refused(Grammar { at: 6 })),
    Case(Plain("a>=1U[0,1]b>=2"), Refused(Grammar { at: 4 })),
    Case(Plain("(a>=1U b>=2)"), Refused(Grammar { at: 7 })),
    Case(Plain("(a>=1U[0,1]b>=2"), Refused(Grammar { at: 15 })),
    Case(
        Plain("(a>=1U[0,1]b>=2U[0,1]a>=1)"),
        Refused(Grammar { at: 15 }),
    ),
    // The grammar goes before names, depth and rows.
    Case(Plain("c>=1)"), Refused(Grammar { at: 4 })),
    Case(Led(17, "!", ")"), Refused(Grammar { at: 17 })),
    Case(Led(1000, "!", ""), Refused(Grammar { at: 1000 })),
    Case(Led(1020, "(", ""), Refused(Grammar { at: 1020 })),
    Case(Led(1024, "(", ""), Refused(Grammar { at: 1024 })),
    Case(Led(65, "a>=1&", ")"), Refused(Grammar { at: 325 })),
    // Names.
    Case(Plain("c>=1"), Refused(UnknownName { at: 0 })),
    Case(Plain("q>=1"), Refused(UnknownName { at: 0 })),
    Case(Plain("ab>=1"), Refused(UnknownName { at: 0 })),
    Case(Plain("a1>=1"), Refused(UnknownName { at: 0 })),
    Case(Led(1020, " ", "c>=1"), Refused(UnknownName { at: 1020 })),
    Case(Plain("a>=1&c>=1|d>=1"), Refused(UnknownName { at: 5 })),
    Case(Plain("!(a>=1U[0,1]c>=2)"), Refused(UnknownName { at: 12 })),
    Case(Plain("a>=500001&c>=1"), Refused(UnknownName { at: 10 })),
    // Limits, at their digits.
    Case(Plain("a>=500001"), Refused(OutOfBounds { at: 3 })),
    Case(Plain("a<=-500001"), Refused(OutOfBounds { at: 4 })),
    Case(Plain("a>=- 500001"), Refused(OutOfBounds { at: 5 })),
    Case(Plain("a>=999999999"), Refused(OutOfBounds { at: 3 })),
    Case(
        Led(1015, " ", "a>=500001"),
        Refused(OutOfBounds { at: 1018 }),
    ),
    Case(Plain("a>=500001&a>=500002"), Refused(OutOfBounds { at: 3 })),
    // Windows, at their first number.
    Case(Plain("F[5,3]a>=1"), Refused(OutOfBounds { at: 2 })),
    Case(Plain("F[0,500000001]a>=1"), Refused(OutOfBounds { at: 2 })),
    Case(
        Plain("G[500000001,500000001]a>=1"),
        Refused(OutOfBounds { at: 2 }),
    ),
    Case(Plain("(a>=1U[ 1,0]b>=2)"), Refused(OutOfBounds { at: 8 })),
    Case(Plain("F[0,1]a>=500001"), Refused(OutOfBounds { at: 9 })),
    Case(Plain("F[1,0]a>=500001"), Refused(OutOfBounds { at: 2 })),
    Case(Led(17, "!", "a>=500001"), Refused(OutOfBounds { at: 20 })),
    // Seventeen deep, by each token that makes depth.
    Case(Led(17, "!", "a>=1"), Refused(TooDeep { at: 16 })),
    Case(Led(17, "G[0,0]", "a>=1"), Refused(TooDeep { at: 96 })),
    Case(Led(17, "F[0,0]", "a>=1"), Refused(TooDeep { at: 96 })),
    Case(Nested(17, "(", "a>=1", ")"), Refused(TooDeep { at: 16 })),
    Case(
        Nested(17, "(a>=1U[0,0]", "b>=2", ")"),
        Refused(TooDeep { at: 176 }),
    ),
    Case(
        Nested(5, "!G[0,0]F[0,0](", "a>=1", ")"),
        Refused(TooDeep { at: 56 }),
    ),
    Case(
        Led(1003, " ", "!!!!!!!!!!!!!!!!!a>=1"),
        Refused(TooDeep { at: 1019 }),
    ),
    Case(
        Trailed("!!!!!!!!!!!!!!!!!a>=1", 64, "&a>=1"),
        Refused(TooDeep { at: 16 }),
    ),
    // Rows.
    Case(Trailed("!!a>=1", 31, "&a>=1"), Refused(TooManyRows)),
    Case(Trailed("a>=1", 32, "|a>=1"), Refused(TooManyRows)),
    Case(Trailed("a>=1", 64, "&a>=1"), Refused(TooManyRows)),
    Case(
        Trailed("F[0,500000000]F[0,1]a>=1", 64, "&a>=1"),
        Refused(TooManyRows),
    ),
    // Reach.
    Case(Plain("F[0,1]G[0,500000000]a>=1"), Refused(TooFar)),
    Case(Plain("(a>=1U[0,1]G[0,500000000]b>=2)"), Refused(TooFar)),
    Case(Plain("(G[0,500000000]a>=1U[0,1]b>=2)"), Refused(TooFar)),
    Case(Led(3, "F[0,250000000]", "a>=1"), Refused(TooFar)),
    Case(Led(16, "F[0,500000000]", "a>=1"), Refused(TooFar)),
];
