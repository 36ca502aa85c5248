// Random rule texts, written from the rows that they should be read as.
use crate::counts::Count;
use crate::dice::Dice;
use rules::row::{Row, Side};
use std::alloc::AllocError;

// Limits of tests: around 0, where the readings are, and at the ends.
static LIMITS: [i32; 14] = [
    -500_000, -499_999, -4, -3, -2, -1, 0, 1, 2, 3, 4, 0, 499_999, 500_000,
];

// Where a part of a rule stands in the text.
#[derive(Clone, Copy, PartialEq, Eq)]
pub(crate) enum Place {
    // It is the whole text, or all that stands in its brackets, or before or behind a `U`.
    Alone,
    LeftOfOr,
    RightOfOr,
    LeftOfAnd,
    // Right of `&`, or behind `!` or a window.
    Part,
}

// What a row does with its children.
#[derive(Clone, Copy, PartialEq, Eq)]
enum Kind {
    Test,
    Not,
    Eventually,
    Always,
    And,
    Or,
    Until,
}

impl Kind {
    // Whether it needs brackets at the place: `&` binds more than `|`, and equal ones group from the left.
    fn needs_brackets(self, place: Place) -> bool {
        match (self, place) {
            (Kind::Or, Place::Alone | Place::LeftOfOr) => false,
            (Kind::Or, _) => true,
            (Kind::And, Place::Part) => true,
            _ => false,
        }
    }
}

#[derive(Clone, Copy)]
struct Window {
    from: u32,
    to: u32,
}

// A rule or a part of one: the number of its last row, and how far it looks ahead.
#[derive(Clone, Copy)]
pub(crate) struct Drawn {
    row: usize,
    pub(crate) reach: u64,
}

impl Drawn {
    // The reach of the row above, which looks from what is drawn to the end of a window.
    fn reach_by(self, window: Window) -> u64 {
        self.reach.saturating_add(window.to as u64)
    }
}

// Writes a rule over so many lines, with windows of up to 12 ticks or also huge ones.
#[derive(Drop)]
pub(crate) struct Writer<'w> {
    pub(crate) dice: &'w mut Dice,
    pub(crate) text: &'w mut String,
    // What the text means: each row behind its children, the left one first.
    pub(crate) rows: &'w mut Vec<Row>,
    pub(crate) lines: u32,
    pub(crate) huge: bool,
    // How often `&` stands beside `|` with no brackets, and how often equal ones stand side by side.
    pub(crate) mixed: &'w mut Count,
    pub(crate) grouped: &'w mut Count,
}

impl Writer<'_> {
    fn draw(&mut self, row: Row, reach: u64) -> Result<Drawn, AllocError> {
        let number = self.rows.len();
        self.rows.push(row)?;
        Ok(Drawn { row: number, reach })
    }

    // Writes a test, now and then of a line that the job may lack.
    fn write_test(&mut self) -> Result<Drawn, AllocError> {
        let lines = if self.dice.one_in(64) { 3 } else { self.lines };
        let (line, name) = match self.dice.below(lines) {
            0 => (0, 'a'),
            1 => (1, 'b'),
            _ => (2, 'c'),
        };
        let (side, sign) = if self.dice.one_in(2) {
            (Side::AtMost, '<')
        } else {
            (Side::AtLeast, '>')
        };
        let limit = self.dice.pick(&LIMITS);
        write!(self.text, "{name}{sign}={limit}")?;
        self.draw(Row::Test { line, side, limit }, 0)
    }

    fn write_window(&mut self) -> Result<Window, AllocError> {
        let most = if self.huge && self.dice.one_in(3) {
            400_000_000
        } else {
            12
        };
        let to = self.dice.below(most).saturating_add(1);
        let from = self.dice.below(to.min(14));
        write!(self.text, "[{from},{to}]")?;
        Ok(Window { from, to })
    }

    fn draw_kind(&mut self) -> Kind {
        match self.dice.below(10) {
            0 => Kind::Test,
            1 => Kind::Not,
            2 => Kind::Eventually,
            3 => Kind::Always,
            4 | 5 => Kind::And,
            6 | 7 => Kind::Or,
            _ => Kind::Until,
        }
    }

    // Counts what stands beside its like, or beside what binds less, with no brackets.
    fn count(&mut self, kind: Kind, place: Place) {
        match (kind, place) {
            (Kind::And, Place::LeftOfOr | Place::RightOfOr) => self.mixed.add(1),
            (Kind::And, Place::LeftOfAnd) | (Kind::Or, Place::LeftOfOr) => self.grouped.add(1),
            _ => (),
        }
    }

    // Writes a rule of at most this depth, in brackets where its place needs them, and now and then where it does not.
    pub(crate) fn write_rule(&mut self, depth: u32, place: Place) -> Result<Drawn, AllocError> {
        let Some(below) = depth.checked_sub(1) else {
            return self.write_test();
        };
        let kind = self.draw_kind();
        let bracketed = kind.needs_brackets(place) || self.dice.one_in(8);
        if bracketed {
            self.text.push('(')?;
        } else {
            self.count(kind, place);
        }
        let drawn = match kind {
            Kind::Test => self.write_test()?,
            Kind::Not => {
                self.text.push('!')?;
                let part = self.write_rule(below, Place::Part)?;
                self.draw(Row::Not { child: part.row }, part.reach)?
            }
            Kind::Eventually => {
                self.text.push('F')?;
                let window = self.write_window()?;
                let part = self.write_rule(below, Place::Part)?;
                let Window { from, to } = window;
                let child = part.row;
                self.draw(Row::Eventually { from, to, child }, part.reach_by(window))?
            }
            Kind::Always => {
                self.text.push('G')?;
                let window = self.write_window()?;
                let part = self.write_rule(below, Place::Part)?;
                let Window { from, to } = window;
                let child = part.row;
                self.draw(Row::Always { from, to, child }, part.reach_by(window))?
            }
            Kind::And => {
                let left = self.write_rule(below, Place::LeftOfAnd)?;
                self.text.push('&')?;
                let right = self.write_rule(below, Place::Part)?;
                let reach = left.reach.max(right.reach);
                let (left, right) = (left.row, right.row);
                self.draw(Row::And { left, right }, reach)?
            }
            Kind::Or => {
                let left = self.write_rule(below, Place::LeftOfOr)?;
                self.text.push('|')?;
                let right = self.write_rule(below, Place::RightOfOr)?;
                let reach = left.reach.max(right.reach);
                let (left, right) = (left.row, right.row);
                self.draw(Row::Or { left, right }, reach)?
            }
            Kind::Until => {
                self.text.push('(')?;
                let left = self.write_rule(below, Place::Alone)?;
                self.text.push('U')?;
                let window = self.write_window()?;
                let right = self.write_rule(below, Place::Alone)?;
                self.text.push(')')?;
                let Window { from, to } = window;
                let reach = left.reach_by(window).max(right.reach_by(window));
                let (left, right) = (left.row, right.row);
                self.draw(
                    Row::Until {
                        from,
                        to,
                        left,
                        right,
                    },
                    reach,
                )?
            }
        };
        if bracketed {
            self.text.push(')')?;
        }
        Ok(drawn)
    }
}
