// What holds of verdicts, wants and marks for every kind of grade. Each law is the contract of a function.
ghost use Rattle.std.specs.Prelude.{◌≡◌, ℕ, ◌+◌, ◌<◌, ◌≤◌, ◌⊎◌, ◌↔◌, List, ◌∷◌, ◌++◌, length};
ghost use Rattle.grades.specs.Ranges.{Span, span, Inside, Holds, Proper, Settled};
ghost use Rattle.rules.specs.Rows.{row_at, root, reach, Child, Sound};
ghost use Rattle.rules.specs.declared.row.Row.{Row};
ghost use Rattle.rules.specs.declared.row.Row.TheVariants.{Not, And, Or, Eventually, Always, Until};
ghost use Rattle.meaning.specs.declared.reading.Reading.{Reading};
ghost use Rattle.meaning.specs.declared.mark.Mark.{Mark};
ghost use Rattle.meaning.specs.Readings.{Readings, Exact, AllWithin, AllExact, entered};
ghost use Rattle.meaning.specs.Values.{value};
ghost use Rattle.meaning.specs.Meanings.{Means};
ghost use Rattle.meaning.specs.Limits.{grade_of};
ghost use Rattle.meaning.specs.Verdicts.{grades, ranges, verdict, exact_grade, Meant};
ghost use Rattle.meaning.specs.Wants.{Wants, Wanted};
ghost use Rattle.meaning.specs.Untils.{FirstLowest, LastNeeded, NoneNeeded};
ghost use Rattle.rules.specs.Tested.{Tests};
ghost use Rattle.meaning.specs.Marks.{Listed, Marked, Marks, AtMarks};

use grades::grade::Grade;

// An entry sets its reading on its line's stretch, and leaves all other readings as they are.
pub fn entries_set_stretches()
    ensures here { (x : Readings) (line from to t : ℕ) (p : Reading) → from ≤ t → t < to → entered x line from to p line t ≡ p }
    ensures elsewhere { (x : Readings) (line from to k t : ℕ) (p : Reading) → ¬ (k ≡ line) ⊎ ((t < from) ⊎ (to ≤ t)) →
        entered x line from to p k t ≡ x k t }
{}

// A row's value is what the row means, in grades and in ranges, and no other value is.
pub fn rows_mean<G: Grade>()
    ensures grades { (rows : List Row) (y : Readings) (k t : ℕ) → Sound rows → k < length rows →
        Means G.kind (grade_of G.kind) y (value (grades G.kind) rows y) (row_at rows k) t (value (grades G.kind) rows y k t) }
    ensures ranges { (rows : List Row) (x : Readings) → Sound rows → Meant G.kind rows x (value (ranges G.kind) rows x) }
    ensures once { (rows : List Row) (x : Readings) (v w : ℕ → ℕ → Span G.kind.Value) → Sound rows →
        Meant G.kind rows x v → Meant G.kind rows x w → (k t : ℕ) → k < length rows → v k t ≡ w k t }
{}

// A verdict's lower end is at most its upper end.
pub fn ranges_are_proper<G: Grade>()
    ensures { (rows : List Row) (x : Readings) (t : ℕ) → Sound rows → Proper G.kind (verdict G.kind rows x t) }
{}

// As readings narrow, so do verdicts.
pub fn verdicts_nest<G: Grade>()
    ensures { (rows : List Row) (x y : Readings) (t : ℕ) → Sound rows → AllWithin y x →
        Inside G.kind (verdict G.kind rows y t) (verdict G.kind rows x t) }
{}

// A verdict holds the grade of each exact job inside the readings.
pub fn verdicts_hold_exact_grades<G: Grade>()
    ensures { (rows : List Row) (x y : Readings) (t : ℕ) → Sound rows → AllExact y → AllWithin y x →
        Holds G.kind (verdict G.kind rows x t) (exact_grade G.kind rows y t) }
{}

// The verdict on an exact job is its grade, at both ends.
pub fn exact_readings_settle<G: Grade>()
    ensures { (rows : List Row) (x : Readings) (t : ℕ) → Sound rows → AllExact x →
        verdict G.kind rows x t ≡ span (exact_grade G.kind rows x t) (exact_grade G.kind rows x t) }
{}

// While the marked readings stand, so does the verdict, however the others narrow.
pub fn marks_suffice<G: Grade>()
    ensures { (rows : List Row) (x y : Readings) (t : ℕ) (ms : List Mark) → Sound rows → Marks G.kind rows x t ms → AllWithin y x →
        AtMarks rows ms (λ line u. y line u ≡ x line u) → verdict G.kind rows y t ≡ verdict G.kind rows x t }
{}

// Once the marked readings have equal ends, the verdict is settled.
pub fn marks_settle<G: Grade>()
    ensures { (rows : List Row) (x y : Readings) (t : ℕ) (ms : List Mark) → Sound rows → Marks G.kind rows x t ms → AllWithin y x →
        AtMarks rows ms (λ line u. Exact (y line u)) → Settled G.kind (verdict G.kind rows y t) }
{}

// Where rows are wanted: the last at the asked tick alone, each other where its parent is wanted, is not settled, and wants it.
// Not, and, or want their children at their own tick, F and G at every tick of the window.
// Of an until's children, right is wanted from the window's start to the tick before left's first lowest.
// Left is wanted from the until's own tick to the last of those ticks at which right is not lowest, and nowhere if there is none.
pub fn wanting_by_parent<G: Grade>()
    ensures root { (rows : List Row) (v : ℕ → ℕ → Span G.kind.Value) (asked u : ℕ) → Sound rows →
        Wanted G.kind rows v asked (root rows) u ↔ (u ≡ asked) }
    ensures child { (rows : List Row) (v : ℕ → ℕ → Span G.kind.Value) (asked k c u : ℕ) → Sound rows → k < length rows → Child (row_at rows k) c →
        Wanted G.kind rows v asked c u ↔ ((t : ℕ) × Wanted G.kind rows v asked k t × ¬ (Settled G.kind (v k t)) × Wants G.kind v (row_at rows k) t c u) }
    ensures turned { (v : ℕ → ℕ → Span G.kind.Value) (c t u : ℕ) → Wants G.kind v (Not c) t c u ↔ (u ≡ t) }
    ensures pair { (v : ℕ → ℕ → Span G.kind.Value) (l r c t u : ℕ) → (c ≡ l) ⊎ (c ≡ r) →
        (Wants G.kind v (And l r) t c u ↔ (u ≡ t)) × (Wants G.kind v (Or l r) t c u ↔ (u ≡ t)) }
    ensures window { (v : ℕ → ℕ → Span G.kind.Value) (a b c t u : ℕ) →
        (Wants G.kind v (Eventually a b c) t c u ↔ ((t + a ≤ u) × (u ≤ t + b))) × (Wants G.kind v (Always a b c) t c u ↔ ((t + a ≤ u) × (u ≤ t + b))) }
    ensures first { (left : ℕ → Span G.kind.Value) (b t : ℕ) → (s : ℕ) × FirstLowest G.kind left b t s }
    ensures right { (v : ℕ → ℕ → Span G.kind.Value) (a b l r t s u : ℕ) → ¬ (l ≡ r) → FirstLowest G.kind (v l) b t s →
        Wants G.kind v (Until a b l r) t r u ↔ ((t + a ≤ u) × (u < s)) }
    ensures last { (right : ℕ → Span G.kind.Value) (a t s : ℕ) → ((w : ℕ) × LastNeeded G.kind right a t s w) ⊎ NoneNeeded G.kind right a t s }
    ensures left { (v : ℕ → ℕ → Span G.kind.Value) (a b l r t s w u : ℕ) → ¬ (l ≡ r) → FirstLowest G.kind (v l) b t s → LastNeeded G.kind (v r) a t s w →
        Wants G.kind v (Until a b l r) t l u ↔ ((t ≤ u) × (u ≤ w)) }
    ensures nowhere { (v : ℕ → ℕ → Span G.kind.Value) (a b l r t s u : ℕ) → ¬ (l ≡ r) → FirstLowest G.kind (v l) b t s → NoneNeeded G.kind (v r) a t s →
        ¬ (Wants G.kind v (Until a b l r) t l u) }
{}

// Whether a row is wanted at a tick can be told, and so can whether it is marked there.
pub fn wants_are_decided<G: Grade>()
    ensures wanted { (rows : List Row) (v : ℕ → ℕ → Span G.kind.Value) (asked k u : ℕ) → Sound rows →
        Dec (Wanted G.kind rows v asked k u) }
    ensures marked { (rows : List Row) (x : Readings) (asked k u : ℕ) → Sound rows → Dec (Marked G.kind rows x asked k u) }
{}

// No row is wanted before the asked tick, nor further behind it than the rule looks ahead.
pub fn wants_are_bounded<G: Grade>()
    ensures { (rows : List Row) (v : ℕ → ℕ → Span G.kind.Value) (asked k u : ℕ) → Sound rows → Wanted G.kind rows v asked k u →
        (k < length rows) × (asked ≤ u) × (u ≤ asked + reach rows) }
{}

// Each verdict has its marks, in one list and no other. It lists the ticks at which a test row is wanted and not settled.
// Of two marks, the one with the smaller row stands first; of one row, the one that ends before the other begins.
pub fn marks_are_one_list<G: Grade>()
    ensures some { (rows : List Row) (x : Readings) (t : ℕ) → Sound rows → (ms : List Mark) × Marks G.kind rows x t ms }
    ensures one { (rows : List Row) (x : Readings) (t : ℕ) (ms ns : List Mark) →
        Marks G.kind rows x t ms → Marks G.kind rows x t ns → ms ≡ ns }
    ensures ticks { (rows : List Row) (x : Readings) (t : ℕ) (ms : List Mark) (k u : ℕ) → Marks G.kind rows x t ms →
        Listed ms k u ↔ (((line : ℕ) × Tests (row_at rows k) line) × Wanted G.kind rows (value (ranges G.kind) rows x) t k u × ¬ (Settled G.kind (value (ranges G.kind) rows x k u))) }
    ensures order { (rows : List Row) (x : Readings) (t : ℕ) (before between behind : List Mark) (m n : Mark) → Marks G.kind rows x t (before ++ (m ∷ (between ++ (n ∷ behind)))) →
        (m.row < n.row) ⊎ ((m.row ≡ n.row) × (m.after < n.first)) }
{}
