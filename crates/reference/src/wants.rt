// At which ticks each row is wanted.
ghost use Rattle.std.specs.Prelude.{◌≡◌, ℕ, ◌<◌, ◌≤◌, ◌⊎◌, Bool, true, slice_index_or};
ghost use Rattle.reference.specs.Tables.{wanted_at};
ghost use Rattle.reference.specs.RowWants.{AskedAt};
ghost use Rattle.reference.specs.Spreads.{SpreadFrom};

use crate::ends::Scale;
use crate::values::{ROWS, Values, ahead};
use rules::row::Row;
use std::ops::Range;

// The ticks that are kept: a row may be wanted at these alone.
pub const WANT_TICKS: usize = 128;

// Arrays and not vectors, so that working them out cannot fail.
#[derive(Clone, Copy)]
pub struct Wants {
    rows: [[bool; WANT_TICKS]; ROWS],
}

// Whether the row can only be lowest at t.
fn only_lowest<S: Scale>(values: &Values, row: usize, t: usize) -> bool {
    values.at(row, t).upper == S::LOWEST
}

// The wants of a row, with those of these ticks that are kept.
fn wanted_on(mut wants: [bool; WANT_TICKS], ticks: Range<usize>) -> [bool; WANT_TICKS]
    ensures inside { (t : ℕ) (d : Bool) → ticks.start ≤ t → t < ticks.end → t < 128 → slice_index_or result t d ≡ true }
    ensures outside { (t : ℕ) (d : Bool) → t < 128 → (t < ticks.start) ⊎ (ticks.end ≤ t) → slice_index_or result t d ≡ slice_index_or wants t d }
{
    let end = ticks.end.min(WANT_TICKS);
    let start = ticks.start.min(end);
    wants[start..end].fill(true);
    wants
}

impl Wants {
    pub fn at(&self, row: usize, t: usize) -> bool
        ensures { result ≡ wanted_at self.now row t }
    {
        match self.rows.get(row) {
            Some(wants) => t < WANT_TICKS && wants[t],
            None => false,
        }
    }

    // Wants the row at those of the ticks that are kept.
    fn want(&mut self, row: usize, ticks: Range<usize>)
        ensures spread { SpreadFrom ticks.start self.old self.new }
        ensures there { (t : ℕ) → row < 64 → ticks.start ≤ t → t < ticks.end → t < 128 → wanted_at self.new row t ≡ true }
    {
        if row < ROWS {
            self.rows[row] = wanted_on(self.rows[row], ticks);
        }
    }

    // Wants left of an until up to the last tick of the window at which right can be more than lowest, and right up to the first at which left can only be lowest.
    fn spread_until<S: Scale>(
        &mut self,
        values: &Values,
        left: usize,
        right: usize,
        t: usize,
        window: Range<usize>,
    )
        requires { t ≤ window.start }
        ensures { SpreadFrom t self.old self.new }
    {
        let end = (t..window.end)
            .find(|u| only_lowest::<S>(values, left, *u))
            .unwrap_or(window.end);
        self.want(right, window.start..end);
        let last = (window.start..end)
            .rev()
            .find(|u| !only_lowest::<S>(values, right, *u));
        if let Some(last) = last {
            self.want(left, t..last.saturating_add(1));
        }
    }

    // What a row that is wanted at t, and not settled there, wants of its children.
    fn spread<S: Scale>(&mut self, row: Row, values: &Values, t: usize)
        ensures { SpreadFrom t self.old self.new }
    {
        let now = t.saturating_add(1);
        match row {
            Row::Test { .. } => {}
            Row::Not { child } => self.want(child, t..now),
            Row::And { left, right } | Row::Or { left, right } => {
                self.want(left, t..now);
                self.want(right, t..now);
            }
            Row::Eventually { from, to, child } | Row::Always { from, to, child } => {
                self.want(child, ahead(t, from)..ahead(now, to));
            }
            Row::Until {
                from,
                to,
                left,
                right,
            } => self.spread_until::<S>(values, left, right, t, ahead(t, from)..ahead(now, to)),
        }
    }

    // The wants of all rows at a tick, parents before children; for rules that look no further than the ticks that are kept.
    pub fn of<S: Scale>(rows: &[Row], values: &Values, tick: usize) -> Wants
        ensures { AskedAt rows.now tick result }
    {
        let mut wants = Wants {
            rows: [[false; WANT_TICKS]; ROWS],
        };
        if let Some(last) = rows.len().checked_sub(1) {
            wants.want(last, tick..tick.saturating_add(1));
        }
        for (k, row) in rows.iter().enumerate().rev() {
            // By number: what is wanted at a tick changes the table that is read.
            for t in tick..WANT_TICKS {
                if wants.at(k, t) && !values.at(k, t).settled() {
                    wants.spread::<S>(*row, values, t);
                }
            }
        }
        wants
    }
}
