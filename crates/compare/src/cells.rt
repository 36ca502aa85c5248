// Cells that the judge writes, told apart and compared.
ghost use Rattle.std.specs.Prelude.{◌≡◌, ℤ, pos, negsuc, true, not, take_while, IfOk};
ghost use Rattle.compare.specs.Cells.{Blanks, unwritten_behind, alike, hold_list};
ghost use Rattle.compare.specs.Scales.{Numbers, truth_number, truths_numbered, margins_numbered};

use grades::grade::Grade;
use grades::margin::Margin;
use grades::range::Range;
use grades::truth::Truth;
use meaning::mark::Mark;
use meaning::reading::Reading;
use pieces::piece::Piece;
use reference::ends::{Ends, Margins, Scale, Truths};
use std::alloc::{AllocError, Global};

// Grades as the reference has them.
pub trait Measured: Grade {
    type Scale: Scale;

    // The grade on the scale.
    ghost number: { Self → ℤ };

    fn measure(self) -> i32
        ensures { result ≡ number self };

    ghost numbers: { Numbers Self.Grade.kind Self.Grade.value Self.Scale.grading number };
}

impl Measured for Truth {
    type Scale = Truths;

    ghost number = { λ t. truth_number t.holds };

    ghost numbers = { truths_numbered (λ t. t.holds) };

    fn measure(self) -> i32 {
        self.holds as i32
    }
}

impl Measured for Margin {
    type Scale = Margins;

    ghost number = { λ m. m.number };

    ghost numbers = { margins_numbered (λ m. record { number = m.number; ok = m.ok }) };

    fn measure(self) -> i32 {
        self.number()
    }
}

// No `From`: neither ranges nor ends are of this crate.
pub fn ends_of<G: Measured>(range: Range<G>) -> Ends
    ensures { result ≡ record { lower = G.number range.lower; upper = G.number range.upper } }
{
    Ends {
        lower: range.lower.measure(),
        upper: range.upper.measure(),
    }
}

pub(crate) fn ends_read(reading: Reading) -> Ends
    ensures { result ≡ record { lower = reading.lower; upper = reading.upper } }
{
    Ends {
        lower: reading.lower(),
        upper: reading.upper(),
    }
}

// What a piece may hold, and how it is compared: ranges of grades have no `==`.
pub trait Plain: Copy {
    type Plain: Copy + PartialEq;

    ghost plain: { Self → Self.Plain };

    ghost unwritten: { Self.Plain };

    // What stands in a piece that was not written.
    fn blank() -> Self
        ensures { plain result ≡ unwritten };

    fn plain(self) -> Self::Plain
        ensures { result ≡ plain self };
}

impl<G: Measured> Plain for Range<G> {
    type Plain = Ends;

    ghost plain = { λ r. record { lower = G.number r.lower; upper = G.number r.upper } };

    ghost unwritten = { record { lower = G.Scale.grading.highest; upper = G.Scale.grading.lowest } };

    // No range of the judge runs from the highest to the lowest.
    fn blank() -> Range<G> {
        Range {
            lower: G::highest(),
            upper: G::lowest(),
        }
    }

    fn plain(self) -> Ends {
        ends_of(self)
    }
}

impl Plain for bool {
    type Plain = bool;

    ghost plain = { λ b. b };

    ghost unwritten = { true };

    fn blank() -> bool {
        true
    }

    fn plain(self) -> bool {
        self
    }
}

impl Plain for Reading {
    type Plain = Ends;

    ghost plain = { λ p. record { lower = p.lower; upper = p.upper } };

    ghost unwritten = { record { lower = negsuc 499999; upper = pos 500000 } };

    fn blank() -> Reading {
        Reading::widest()
    }

    fn plain(self) -> Ends {
        ends_read(self)
    }
}

pub trait Cell: Copy {
    // All that a cell holds.
    type Held: Copy + PartialEq;

    ghost held: { Self → Self.Held };

    ghost unwritten: { Self.Held };

    // What stands in a cell that was not written.
    fn blank() -> Self
        ensures { held result ≡ unwritten };

    fn held(self) -> Self::Held
        ensures { result ≡ held self };
}

impl<V: Plain> Cell for Piece<V> {
    type Held = Piece<V::Plain>;

    ghost held = { λ p. record { start = p.start; value = V.plain p.value } };

    ghost unwritten = { record { start = 4294967295; value = V.unwritten } };

    fn blank() -> Piece<V> {
        Piece {
            start: u32::MAX,
            value: V::blank(),
        }
    }

    fn held(self) -> Piece<V::Plain> {
        Piece {
            start: self.start,
            value: self.value.plain(),
        }
    }
}

impl Cell for Mark {
    type Held = Mark;

    ghost held = { λ m. m };

    ghost unwritten = { record { row = 999; first = 4294967295; after = 0 } };

    fn blank() -> Mark {
        Mark {
            row: 999,
            first: u32::MAX,
            after: 0,
        }
    }

    fn held(self) -> Mark {
        self
    }
}

// So many cells, none of which was written.
pub fn blanks<C: Cell>(heap: Global, count: usize) -> Result<Vec<C>, AllocError>
    ensures { IfOk result (λ cells. Blanks C.held C.unwritten count cells.items) }
{
    let mut cells = Vec::with_capacity(heap, count)?;
    // Not by `vec!`: that a clone holds the same is no law of cells.
    for _ in 0..count {
        cells.push(C::blank())?;
    }
    Ok(cells)
}

fn is_blank<C: Cell>(cell: C) -> bool
    ensures { result ≡ C.Held.eq (C.held cell) C.unwritten }
{
    cell.held() == C::blank().held()
}

// The cells that were written, from the first on.
pub fn written<C: Cell>(cells: &[C]) -> &[C]
    ensures { result.now ≡ take_while (λ c. not (C.Held.eq (C.held c) C.unwritten)) cells.now }
{
    let used = cells.iter().take_while(|cell| !is_blank(**cell)).count();
    &cells[..used]
}

// Whether no cell from `used` on was written.
pub fn blank_from<C: Cell>(cells: &[C], used: usize) -> bool
    ensures { result ≡ unwritten_behind C.held C.Held.eq C.unwritten used cells.now }
{
    cells.iter().skip(used).all(|cell| is_blank(*cell))
}

// Whether both have so many cells, and these are the same.
pub fn begin_alike<C: Cell>(one: &[C], other: &[C], used: usize) -> bool
    ensures { result ≡ alike C.held C.Held.eq used one.now other.now }
{
    match (one.get(..used), other.get(..used)) {
        (Some(one), Some(other)) => one
            .iter()
            .zip(other)
            .all(|(one, other)| one.held() == other.held()),
        _ => false,
    }
}

// Whether the cells hold the list and no more.
pub(crate) fn hold<C: Cell>(cells: &[C], list: &[C::Held]) -> bool
    ensures { result ≡ hold_list C.held C.Held.eq cells.now list.now }
{
    cells.len() == list.len()
        && cells
            .iter()
            .zip(list)
            .all(|(cell, held)| cell.held() == *held)
}
