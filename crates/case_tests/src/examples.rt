// Cases at the edges of their rules, each with its listing.
use crate::example::{Example, Lent};

// Enough for every case that is not about cells.
const PLENTY: Lent = Lent {
    rows: 64,
    wants: 64,
    marks: 16,
};

pub(crate) static EXAMPLES: [Example<'static>; 47] = [
    // Names.
    Example {
        title: "no field",
        lent: PLENTY,
        case: b"",
        lines: "refused 21 field 1\n",
    },
    Example {
        title: "a name alone",
        lent: PLENTY,
        case: b"L\x00\x01a",
        lines: "refused 21 field 2\n",
    },
    Example {
        title: "no letter",
        lent: PLENTY,
        case: b"L\x00\x00",
        lines: "refused 20 field 1\n",
    },
    Example {
        title: "nine letters",
        lent: PLENTY,
        case: b"L\x00\x09abcdefghi",
        lines: "refused 20 field 1\n",
    },
    Example {
        title: "eight letters",
        lent: PLENTY,
        case: b"L\x00\x08abcdefghR\x00\x0babcdefgh>=1",
        lines: "",
    },
    Example {
        title: "a digit first",
        lent: PLENTY,
        case: b"L\x00\x021a",
        lines: "refused 21 field 1\n",
    },
    Example {
        title: "a capital",
        lent: PLENTY,
        case: b"L\x00\x02aB",
        lines: "refused 21 field 1\n",
    },
    Example {
        title: "a name again",
        lent: PLENTY,
        case: b"L\x00\x01aL\x00\x01bL\x00\x01a",
        lines: "refused 21 field 3\n",
    },
    Example {
        title: "sixteen names",
        lent: PLENTY,
        case: b"L\x00\x01aL\x00\x01bL\x00\x01cL\x00\x01dL\x00\x01eL\x00\x01fL\x00\x01gL\x00\x01hL\x00\x01iL\x00\x01jL\x00\x01kL\x00\x01lL\x00\x01mL\x00\x01nL\x00\x01oL\x00\x01pR\x00\x04p>=1",
        lines: "",
    },
    Example {
        title: "seventeen names",
        lent: PLENTY,
        case: b"L\x00\x01aL\x00\x01bL\x00\x01cL\x00\x01dL\x00\x01eL\x00\x01fL\x00\x01gL\x00\x01hL\x00\x01iL\x00\x01jL\x00\x01kL\x00\x01lL\x00\x01mL\x00\x01nL\x00\x01oL\x00\x01pL\x00\x01qR\x00\x04p>=1",
        lines: "refused 21 field 17\n",
    },
    Example {
        title: "a long seventeenth name",
        lent: PLENTY,
        case: b"L\x00\x01aL\x00\x01bL\x00\x01cL\x00\x01dL\x00\x01eL\x00\x01fL\x00\x01gL\x00\x01hL\x00\x01iL\x00\x01jL\x00\x01kL\x00\x01lL\x00\x01mL\x00\x01nL\x00\x01oL\x00\x01pL\x00\x09abcdefghi",
        lines: "refused 20 field 17\n",
    },
    // The rule.
    Example {
        title: "a rule first",
        lent: PLENTY,
        case: b"R\x00\x04a>=1",
        lines: "refused 21 field 1\n",
    },
    Example {
        title: "an entry before the rule",
        lent: PLENTY,
        case: b"L\x00\x01aE\x00\x11\x00\x00\x00\x00\x00\x00\x00\x00\x01\x00\x00\x00\x00\x00\x00\x00\x00",
        lines: "refused 21 field 2\n",
    },
    Example {
        title: "a tick before the names",
        lent: PLENTY,
        case: b"T\x00\x04\x00\x00\x00\x00",
        lines: "refused 21 field 1\n",
    },
    Example {
        title: "an empty rule",
        lent: PLENTY,
        case: b"L\x00\x01aR\x00\x00",
        lines: "refused 12 field 2 byte 0\n",
    },
    Example {
        title: "a rule of no grammar",
        lent: PLENTY,
        case: b"L\x00\x01aR\x00\x05a>=1&",
        lines: "refused 14 field 2 byte 5\n",
    },
    Example {
        title: "a rule with another name",
        lent: PLENTY,
        case: b"L\x00\x01aR\x00\x04b>=1",
        lines: "refused 15 field 2 byte 0\n",
    },
    Example {
        title: "a rule that is misplaced and none",
        lent: PLENTY,
        case: b"R\x00\x00",
        lines: "refused 21 field 1\n",
    },
    Example {
        title: "the rule is the last field",
        lent: PLENTY,
        case: b"L\x00\x01aR\x00\x04a>=1",
        lines: "",
    },
    Example {
        title: "a second rule",
        lent: PLENTY,
        case: b"L\x00\x01aR\x00\x04a>=1R\x00\x04a>=1",
        lines: "refused 21 field 3\n",
    },
    Example {
        title: "a name behind the rule",
        lent: PLENTY,
        case: b"L\x00\x01aR\x00\x04a>=1L\x00\x01b",
        lines: "refused 21 field 3\n",
    },
    // Fields that are cut short, or have a wrong tag or length.
    Example {
        title: "a tag alone",
        lent: PLENTY,
        case: b"L\x00\x01aR\x00\x04a>=1T",
        lines: "refused 20 field 3\n",
    },
    Example {
        title: "half a length",
        lent: PLENTY,
        case: b"L\x00\x01aR\x00\x04a>=1T\x00",
        lines: "refused 20 field 3\n",
    },
    Example {
        title: "a body cut short",
        lent: PLENTY,
        case: b"L\x00\x01aR\x00\x04a>=1T\x00\x04\x00\x00\x00",
        lines: "refused 20 field 3\n",
    },
    Example {
        title: "an unknown tag",
        lent: PLENTY,
        case: b"L\x00\x01aR\x00\x04a>=1X\x00\x00",
        lines: "refused 20 field 3\n",
    },
    Example {
        title: "a small tag",
        lent: PLENTY,
        case: b"L\x00\x01aR\x00\x04a>=1t\x00\x04\x00\x00\x00\x00",
        lines: "refused 20 field 3\n",
    },
    Example {
        title: "a tick of five bytes",
        lent: PLENTY,
        case: b"L\x00\x01aR\x00\x04a>=1T\x00\x05\x00\x00\x00\x00\x00",
        lines: "refused 20 field 3\n",
    },
    Example {
        title: "an entry of sixteen bytes",
        lent: PLENTY,
        case: b"L\x00\x01aR\x00\x04a>=1E\x00\x10\x00\x00\x00\x00\x00\x00\x00\x00\x00\x00\x00\x00\x00\x00\x00\x00",
        lines: "refused 20 field 3\n",
    },
    Example {
        title: "what stands before is listed",
        lent: PLENTY,
        case: b"L\x00\x01aR\x00\x04a>=1T\x00\x04\x00\x00\x00\x00T",
        lines: "0 unsure -500001 499999 1\n0 0 1\nrefused 20 field 4\n",
    },
    Example {
        title: "nothing is listed behind",
        lent: PLENTY,
        case: b"L\x00\x01aR\x00\x04a>=1L\x00\x01bT\x00\x04\x00\x00\x00\x00",
        lines: "refused 21 field 3\n",
    },
    // Entries.
    Example {
        title: "a pass",
        lent: PLENTY,
        case: b"L\x00\x01aR\x00\x04a>=1E\x00\x11\x00\x00\x00\x00\x00\x00\x00\x00\x0a\x00\x00\x00\x05\x00\x00\x00\x07T\x00\x04\x00\x00\x00\x00",
        lines: "0 pass 4 6 0\n",
    },
    Example {
        title: "a fail",
        lent: PLENTY,
        case: b"L\x00\x01aR\x00\x04a>=1E\x00\x11\x00\x00\x00\x00\x00\x00\x00\x00\x0a\xff\xff\xff\xfb\xff\xff\xff\xffT\x00\x04\x00\x00\x00\x09",
        lines: "9 fail -6 -2 0\n",
    },
    Example {
        title: "behind the stretch",
        lent: PLENTY,
        case: b"L\x00\x01aR\x00\x04a>=1E\x00\x11\x00\x00\x00\x00\x00\x00\x00\x00\x0a\x00\x00\x00\x05\x00\x00\x00\x07T\x00\x04\x00\x00\x00\x0a",
        lines: "10 unsure -500001 499999 1\n0 10 11\n",
    },
    Example {
        title: "no such line",
        lent: PLENTY,
        case: b"L\x00\x01aR\x00\x04a>=1E\x00\x11\x01\x00\x00\x00\x00\x00\x00\x00\x0a\x00\x00\x00\x05\x00\x00\x00\x07T\x00\x04\x00\x00\x00\x00",
        lines: "refused 2 field 3\n0 unsure -500001 499999 1\n0 0 1\n",
    },
    Example {
        title: "no tick",
        lent: PLENTY,
        case: b"L\x00\x01aR\x00\x04a>=1E\x00\x11\x00\x00\x00\x00\x03\x00\x00\x00\x03\x00\x00\x00\x05\x00\x00\x00\x07",
        lines: "refused 3 field 3\n",
    },
    Example {
        title: "the last end",
        lent: PLENTY,
        case: b"L\x00\x01aR\x00\x04a>=1E\x00\x11\x00\x00\x00\x00\x00;\x9a\xca\x01\x00\x00\x00\x05\x00\x00\x00\x07T\x00\x04\x1d\xcde\x00",
        lines: "500000000 pass 4 6 0\n",
    },
    Example {
        title: "past the last end",
        lent: PLENTY,
        case: b"L\x00\x01aR\x00\x04a>=1E\x00\x11\x00\x00\x00\x00\x00;\x9a\xca\x02\x00\x00\x00\x05\x00\x00\x00\x07",
        lines: "refused 3 field 3\n",
    },
    Example {
        title: "ends exchanged",
        lent: PLENTY,
        case: b"L\x00\x01aR\x00\x04a>=1E\x00\x11\x00\x00\x00\x00\x00\x00\x00\x00\x0a\x00\x00\x00\x07\x00\x00\x00\x05",
        lines: "refused 4 field 3\n",
    },
    Example {
        title: "below the lowest reading",
        lent: PLENTY,
        case: b"L\x00\x01aR\x00\x04a>=1E\x00\x11\x00\x00\x00\x00\x00\x00\x00\x00\x0a\xff\xf8^\xdf\x00\x00\x00\x05",
        lines: "refused 4 field 3\n",
    },
    Example {
        title: "a wider reading",
        lent: PLENTY,
        case: b"L\x00\x01aR\x00\x04a>=1E\x00\x11\x00\x00\x00\x00\x00\x00\x00\x00\x0a\x00\x00\x00\x05\x00\x00\x00\x07E\x00\x11\x00\x00\x00\x00\x00\x00\x00\x00\x0a\x00\x00\x00\x05\x00\x00\x00\x08T\x00\x04\x00\x00\x00\x00",
        lines: "refused 5 field 4\n0 pass 4 6 0\n",
    },
    // Ticks.
    Example {
        title: "the last tick",
        lent: PLENTY,
        case: b"L\x00\x01aR\x00\x04a>=1T\x00\x04\x1d\xcde\x00",
        lines: "500000000 unsure -500001 499999 1\n0 500000000 500000001\n",
    },
    Example {
        title: "past the last tick",
        lent: PLENTY,
        case: b"L\x00\x01aR\x00\x04a>=1T\x00\x04\x1d\xcde\x01T\x00\x04\x00\x00\x00\x00",
        lines: "refused 8 field 3\n0 unsure -500001 499999 1\n0 0 1\n",
    },
    // Few cells.
    Example {
        title: "no row cell",
        lent: Lent {
            rows: 0,
            wants: 2,
            marks: 1,
        },
        case: b"L\x00\x01aR\x00\x04a>=1T\x00\x04\x00\x00\x00\x00",
        lines: "refused 9 field 3\n",
    },
    Example {
        title: "no want cell",
        lent: Lent {
            rows: 1,
            wants: 0,
            marks: 1,
        },
        case: b"L\x00\x01aR\x00\x04a>=1T\x00\x04\x00\x00\x00\x00",
        lines: "refused 10 field 3\n",
    },
    Example {
        title: "one want cell",
        lent: Lent {
            rows: 1,
            wants: 1,
            marks: 1,
        },
        case: b"L\x00\x01aR\x00\x04a>=1T\x00\x04\x00\x00\x00\x00",
        lines: "refused 10 field 3\n",
    },
    Example {
        title: "no mark cell",
        lent: Lent {
            rows: 1,
            wants: 2,
            marks: 0,
        },
        case: b"L\x00\x01aR\x00\x04a>=1T\x00\x04\x00\x00\x00\x00",
        lines: "refused 11 field 3\n",
    },
    Example {
        title: "just enough cells",
        lent: Lent {
            rows: 1,
            wants: 2,
            marks: 1,
        },
        case: b"L\x00\x01aR\x00\x04a>=1T\x00\x04\x00\x00\x00\x00",
        lines: "0 unsure -500001 499999 1\n0 0 1\n",
    },
];
