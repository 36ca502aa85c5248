// How many ticks ahead a table of rows looks.
ghost use Rattle.std.specs.Prelude.{◌≡◌, ℕ, ◌+◌, ◌*◌, ◌<◌, ◌≤◌, length, slice_index};
ghost use Rattle.rules.specs.Rows.{row_reach_by as reach_of_row, reach};

use crate::row::Row;
use arrayvec::ArrayVec;

fn reach_at(done: &[u64], row: usize) -> u64
    ensures { result ≡ slice_index done.now row }
{
    done.get(row).copied().unwrap_or(0)
}

// The reach of a row, by those of the rows before it.
fn row_reach(done: &[u64], row: Row) -> u64
    requires { (c : ℕ) → slice_index done.now c ≤ 274877906944 }
    ensures value { result ≡ reach_of_row done.now row }
    ensures bound { (m : ℕ) → ((c : ℕ) → slice_index done.now c ≤ m) → result ≤ m + 4294967296 }
{
    match row {
        Row::Test { .. } => 0,
        Row::Not { child } => reach_at(done, child),
        Row::And { left, right } | Row::Or { left, right } => {
            reach_at(done, left).max(reach_at(done, right))
        }
        Row::Eventually { to, child, .. } | Row::Always { to, child, .. } => {
            reach_at(done, child) + to as u64
        }
        Row::Until {
            to,
            left,
            right,
            ..
        } => reach_at(done, left).max(reach_at(done, right)) + to as u64,
    }
}

pub(crate) fn reach_of(rows: &[Row]) -> u64
    requires few { length rows.now ≤ 64 }
    requires some { 0 < length rows.now }
    ensures { result ≡ reach rows.now }
{
    let mut found: ArrayVec<u64, 64> = ArrayVec::new();
    for row in rows {
        let reach = row_reach(found.as_slice(), *row);
        found.push(reach);
    }
    found.as_slice()[rows.len() - 1]
}
