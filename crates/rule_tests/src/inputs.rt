// Whole inputs, each with its listing.
use crate::tally::{Run, Tally};
use rule_lines::input::answer_to;
use rule_lines::listing::Listing;
use std::io;

// An input, what it is about, and its listing.
pub(crate) struct WholeInput {
    about: &'static str,
    input: &'static [u8],
    listing: &'static str,
}

impl Run for WholeInput {
    fn run(&self, rt: &HostRuntime, tally: &mut Tally) -> io::Result<()> {
        let listing = Listing(answer_to(self.input));
        let found = format!(in rt.alloc(); "{listing}")?;
        let right = found.as_str() == self.listing;
        let shown = format!(in rt.alloc(); "{found:?}")?;
        tally.note(rt, self.about, shown, right)
    }
}

pub(crate) static INPUTS: [WholeInput; 19] = [
    WholeInput {
        about: "no byte",
        input: b"",
        listing: "refused 12 byte 0\n",
    },
    WholeInput {
        about: "no line end",
        input: b"a b",
        listing: "refused 12 byte 0\n",
    },
    WholeInput {
        about: "no text",
        input: b"a b\n",
        listing: "refused 12 byte 0\n",
    },
    WholeInput {
        about: "no name",
        input: b"\na>=1",
        listing: "refused 15 byte 0\n",
    },
    WholeInput {
        about: "any byte",
        input: b"\xff\x00 a\n\xff",
        listing: "refused 13 byte 0\n",
    },
    WholeInput {
        about: "a line end of two bytes",
        input: b"a\r\na>=1",
        listing: "refused 15 byte 0\n",
    },
    WholeInput {
        about: "a space before the name",
        input: b" a\na>=1",
        listing: "0 test line 1 >= 1\n1 rows, reach 0\n",
    },
    WholeInput {
        about: "two spaces between names",
        input: b"a  b\nb<=-7",
        listing: "0 test line 2 <= -7\n1 rows, reach 0\n",
    },
    WholeInput {
        about: "a part of nine bytes",
        input: b"abcdefghi abcdefgh\nabcdefgh>=1",
        listing: "0 test line 1 >= 1\n1 rows, reach 0\n",
    },
    WholeInput {
        about: "a part of twenty bytes",
        input: b"abcdefghijklmnopqrst b\nabcdefgh>=1",
        listing: "refused 15 byte 0\n",
    },
    WholeInput {
        about: "equal names",
        input: b"a b b\nb>=1",
        listing: "0 test line 1 >= 1\n1 rows, reach 0\n",
    },
    WholeInput {
        about: "the sixteenth name",
        input: b"x x x x x x x x x x x x x x x p q\np>=1",
        listing: "0 test line 15 >= 1\n1 rows, reach 0\n",
    },
    WholeInput {
        about: "the seventeenth name",
        input: b"x x x x x x x x x x x x x x x p q\nq>=1",
        listing: "refused 15 byte 0\n",
    },
    WholeInput {
        about: "places count from the second line",
        input: b"a b\n\nc>=1\n",
        listing: "refused 15 byte 1\n",
    },
    WholeInput {
        about: "a window",
        input: b"hot flow\nG[0,3](flow<=0|hot>=1800)",
        listing: "0 test line 1 <= 0\n1 test line 0 >= 1800\n2 or 0 1\n3 G [0,3] 2\n4 rows, reach 3\n",
    },
    WholeInput {
        about: "and before or, from the left",
        input: b"a b c\na>=1|b>=2&c>=3|a<=9",
        listing: "0 test line 0 >= 1\n1 test line 1 >= 2\n2 test line 2 >= 3\n3 and 1 2\n4 or 0 3\n5 test line 0 <= 9\n6 or 4 5\n7 rows, reach 0\n",
    },
    WholeInput {
        about: "and from the left",
        input: b"a b\na>=1&b>=2&a<=3",
        listing: "0 test line 0 >= 1\n1 test line 1 >= 2\n2 and 0 1\n3 test line 0 <= 3\n4 and 2 3\n5 rows, reach 0\n",
    },
    WholeInput {
        about: "not before and",
        input: b"a b\n!a>=1&b>=2",
        listing: "0 test line 0 >= 1\n1 not 0\n2 test line 1 >= 2\n3 and 1 2\n4 rows, reach 0\n",
    },
    WholeInput {
        about: "an until",
        input: b"a b\n(F[1,2]a>=-500000 U[3,40] !b<=0)",
        listing: "0 test line 0 >= -500000\n1 F [1,2] 0\n2 test line 1 <= 0\n3 not 2\n4 until [3,40] 1 3\n5 rows, reach 42\n",
    },
];
