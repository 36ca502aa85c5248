// An entry that ends as late as one may, under each kind of row: what is known changes twice in a thousand million ticks, so each case ends at once.
// Line a reads 5..7 up to tick 1,000,000,000, and the last tick that may be asked is 500,000,000.
use crate::example::{Example, Lent};

const PLENTY: Lent = Lent {
    rows: 64,
    wants: 64,
    marks: 16,
};

pub(crate) static LATE: [Example<'static>; 7] = [
    Example {
        title: "the last end under a test",
        lent: PLENTY,
        case: b"L\x00\x01aR\x00\x04a>=7E\x00\x11\x00\x00\x00\x00\x00;\x9a\xca\x01\x00\x00\x00\x05\x00\x00\x00\x07T\x00\x04\x1d\xcde\x00",
        lines: "500000000 unsure -2 0 1\n0 500000000 500000001\n",
    },
    Example {
        title: "the last end under not",
        lent: PLENTY,
        case: b"L\x00\x01aR\x00\x05!a>=7E\x00\x11\x00\x00\x00\x00\x00;\x9a\xca\x01\x00\x00\x00\x05\x00\x00\x00\x07T\x00\x04\x1d\xcde\x00",
        lines: "500000000 unsure 0 2 1\n0 500000000 500000001\n",
    },
    Example {
        title: "the last end under and",
        lent: PLENTY,
        case: b"L\x00\x01aR\x00\x09a>=7&a<=6E\x00\x11\x00\x00\x00\x00\x00;\x9a\xca\x01\x00\x00\x00\x05\x00\x00\x00\x07T\x00\x04\x1d\xcde\x00",
        lines: "500000000 unsure -2 0 2\n0 500000000 500000001\n1 500000000 500000001\n",
    },
    Example {
        title: "the last end under or",
        lent: PLENTY,
        case: b"L\x00\x01aR\x00\x09a>=7|a<=6E\x00\x11\x00\x00\x00\x00\x00;\x9a\xca\x01\x00\x00\x00\x05\x00\x00\x00\x07T\x00\x04\x1d\xcde\x00",
        lines: "500000000 unsure -1 1 2\n0 500000000 500000001\n1 500000000 500000001\n",
    },
    Example {
        title: "the last end under F",
        lent: PLENTY,
        case: b"L\x00\x01aR\x00\x12F[0,500000000]a>=7E\x00\x11\x00\x00\x00\x00\x00;\x9a\xca\x01\x00\x00\x00\x05\x00\x00\x00\x07T\x00\x04\x1d\xcde\x00",
        lines: "500000000 unsure -2 0 1\n0 500000000 1000000001\n",
    },
    Example {
        title: "the last end under G",
        lent: PLENTY,
        case: b"L\x00\x01aR\x00\x12G[0,500000000]a<=6E\x00\x11\x00\x00\x00\x00\x00;\x9a\xca\x01\x00\x00\x00\x05\x00\x00\x00\x07T\x00\x04\x1d\xcde\x00",
        lines: "500000000 unsure -1 1 1\n0 500000000 1000000001\n",
    },
    Example {
        title: "the last end under until",
        lent: PLENTY,
        case: b"L\x00\x01aR\x00\x18(a>=7U[0,500000000]a<=6)E\x00\x11\x00\x00\x00\x00\x00;\x9a\xca\x01\x00\x00\x00\x05\x00\x00\x00\x07T\x00\x04\x1d\xcde\x00",
        lines: "500000000 unsure -2 0 2\n0 500000000 1000000001\n1 500000000 1000000001\n",
    },
];
