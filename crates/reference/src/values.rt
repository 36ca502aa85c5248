// The values of a rule's rows at each tick.
ghost use Rattle.std.specs.Prelude.{◌≡◌, ℕ, ◌<◌, ◌≤◌, length, slice_index_or};
ghost use Rattle.reference.specs.Tables.{nothing, value_at};
ghost use Rattle.reference.specs.RowValues.{graded_gaps, Graded, Valued};

use crate::ends::{Ends, Scale};
use crate::forecast::{Forecast, HORIZON, TICKS};
use rules::row::{Row, Side};
use std::ops::RangeInclusive;

// The most rows that a rule has.
pub(crate) const ROWS: usize = 64;

const NOTHING: Ends = Ends { lower: 0, upper: 0 };

// From the horizon on every reading is the widest, so each row keeps its value from there on. Arrays and not vectors, so that working them out cannot fail.
#[derive(Clone, Copy)]
pub struct Values {
    rows: [[Ends; TICKS]; ROWS],
}

fn test<S: Scale>(reading: Ends, side: Side, limit: i32) -> Ends
    ensures { result ≡ graded_gaps S.grading reading side limit }
{
    match side {
        Side::AtLeast => Ends {
            lower: S::grade(reading.lower.wrapping_sub(limit)),
            upper: S::grade(reading.upper.wrapping_sub(limit)),
        },
        Side::AtMost => Ends {
            lower: S::grade(limit.wrapping_sub(reading.upper)),
            upper: S::grade(limit.wrapping_sub(reading.lower)),
        },
    }
}

// The tick that is so many ticks ahead of t.
pub(crate) fn ahead(t: usize, by: u32) -> usize
    ensures { t ≤ result }
{
    t.saturating_add(by as usize)
}

// The ticks of a window ahead of t, where the horizon stands for all behind it.
fn window(t: usize, from: u32, to: u32) -> RangeInclusive<usize> {
    ahead(t, from).min(HORIZON)..=ahead(t, to).min(HORIZON)
}

impl Values {
    pub fn at(&self, row: usize, t: usize) -> Ends
        ensures { result ≡ value_at self.now row t }
    {
        match self.rows.get(row) {
            Some(values) => values[t.min(HORIZON)],
            None => NOTHING,
        }
    }

    // The row's values at these ticks, joined into one.
    fn over<F: Fn(Ends, Ends) -> Ends>(
        &self,
        row: usize,
        ticks: RangeInclusive<usize>,
        join: F,
    ) -> Ends
        requires { F.IsAlwaysCallable join }
    {
        ticks
            .map(|u| self.at(row, u))
            .reduce(join)
            .unwrap_or(NOTHING)
    }

    // For each tick u of the window: right at u, and left from t to u.
    fn until(&self, left: usize, right: usize, t: usize, ticks: RangeInclusive<usize>) -> Ends {
        ticks
            .map(|u| {
                let held = self.over(left, t..=u, Ends::lower_of);
                self.at(right, u).lower_of(held)
            })
            .reduce(Ends::upper_of)
            .unwrap_or(NOTHING)
    }

    // The value of a row at t, by those of the rows before it.
    fn value<S: Scale>(&self, row: Row, forecast: &Forecast, t: usize) -> Ends
        ensures { Graded S.grading forecast.now self.now row t result }
    {
        match row {
            Row::Test { line, side, limit } => {
                test::<S>(forecast.reading(line as usize, t), side, limit)
            }
            Row::Not { child } => self.at(child, t).opposite::<S>(),
            Row::And { left, right } => self.at(left, t).lower_of(self.at(right, t)),
            Row::Or { left, right } => self.at(left, t).upper_of(self.at(right, t)),
            Row::Eventually { from, to, child } => {
                self.over(child, window(t, from, to), Ends::upper_of)
            }
            Row::Always { from, to, child } => {
                self.over(child, window(t, from, to), Ends::lower_of)
            }
            Row::Until {
                from,
                to,
                left,
                right,
            } => self.until(left, right, t, window(t, from, to)),
        }
    }

    // The values of a row at all ticks that are kept.
    fn at_each_tick<S: Scale>(&self, row: Row, forecast: &Forecast) -> [Ends; TICKS]
        ensures { (t : ℕ) → t < 49 → Graded S.grading forecast.now self.now row t (slice_index_or result t nothing) }
    {
        let mut found = [NOTHING; TICKS];
        for t in 0..TICKS {
            found[t] = self.value::<S>(row, forecast, t);
        }
        found
    }

    // The values of all rows, children before parents.
    pub fn of<S: Scale>(rows: &[Row], forecast: &Forecast) -> Values
        ensures { Valued S.grading rows.now forecast.now (length rows.now) result }
    {
        let mut values = Values {
            rows: [[NOTHING; TICKS]; ROWS],
        };
        for (k, row) in rows.iter().enumerate() {
            if k < ROWS {
                values.rows[k] = values.at_each_tick::<S>(*row, forecast);
            }
        }
        values
    }
}
