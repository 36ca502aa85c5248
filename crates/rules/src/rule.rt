// A rule, as the judge works on it.
ghost use Rattle.std.specs.Prelude.{◌≡◌, ℕ, suc, ◌<◌, ◌≤◌, true, take};
ghost use Rattle.rules.specs.Rows.{row_at, row_fits, row_earlier, uses, reach};

use crate::row::Row;

// A table of 1 to 64 rows, the last of which is the rule's. Limits and windows are in bounds, children stand
// in earlier rows, each row but the last is the child of exactly one row, and the reach is 500,000,000 at most.
// An array and a count, since a rule is copied, and an array vector is not.
#[derive(Clone, Copy)]
pub struct Rule {
    pub(crate) rows: [Row; 64],
    pub(crate) count: usize,
    ghost some: { 0 < count },
    ghost few: { count ≤ 64 },
    ghost fits: { (k : ℕ) → k < count → row_fits (row_at (take count rows) k) ≡ true },
    ghost earlier: { (k : ℕ) → k < count → row_earlier (row_at (take count rows) k) k ≡ true },
    ghost parent: { (c : ℕ) → suc c < count → uses (take count rows) c ≡ 1 },
    ghost near: { reach (take count rows) ≤ 500000000 },
}
