// A rule's rows, as the judge works on them.

// Which side of its limit a test wants the reading on.
#[derive(Clone, Copy, PartialEq, Eq)]
pub enum Side {
    AtLeast,
    AtMost,
}

// One row. Children are numbers of earlier rows; a window goes from one tick ahead to another, both counted.
#[derive(Clone, Copy, PartialEq, Eq)]
pub enum Row {
    Test {
        line: u8,
        side: Side,
        limit: i32,
    },
    Not {
        child: usize,
    },
    And {
        left: usize,
        right: usize,
    },
    Or {
        left: usize,
        right: usize,
    },
    Eventually {
        from: u32,
        to: u32,
        child: usize,
    },
    Always {
        from: u32,
        to: u32,
        child: usize,
    },
    Until {
        from: u32,
        to: u32,
        left: usize,
        right: usize,
    },
}
