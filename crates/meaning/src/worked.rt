// Worked cases, as one table.
ghost use Rattle.std.specs.Prelude.{ℕ, [], ◌∷◌, ℤ, pos, negsuc};
ghost use Rattle.grades.specs.Truths.{truths};
ghost use Rattle.rules.specs.Rows.{NumberFits, Sound};
ghost use Rattle.meaning.specs.declared.reading.Reading.{Reading};
ghost use Rattle.meaning.specs.declared.outcome.Outcome.TheVariants.{Pass, Fail, Unsure};
ghost use Rattle.meaning.specs.Marks.{Marks};
ghost use Rattle.meaning.specs.Cases.{ComesTo, MarginFrom, stretch, nothing_entered, guard, forecast, refined, until, p_then_q, at_least};

// A guard over four ticks on a forecast, then on a finer one; an until whose left side fails at the tick of its right side, and one that holds; and tests at the lowest readings with nothing entered.
pub fn worked_cases_stand()
    ensures rules { Sound guard × Sound until × ((limit : ℤ) → NumberFits limit → Sound (at_least limit)) }
    ensures unsure { ComesTo guard forecast 0 Unsure }
    ensures margin { MarginFrom guard forecast 0 (negsuc 39) (pos 100) }
    ensures marks { Marks truths guard forecast 0 (stretch 0 2 4 ∷ stretch 1 2 4 ∷ []) }
    ensures pass { ComesTo guard refined 0 Pass }
    ensures finer { MarginFrom guard refined 0 (pos 0) (pos 50) }
    ensures unmarked { Marks truths guard refined 0 [] }
    ensures late { (r : Reading) → ComesTo until (p_then_q r 2) 0 Fail }
    ensures timely { (r : Reading) → ComesTo until (p_then_q r 1) 0 Pass }
    ensures lowest { (t : ℕ) → ComesTo (at_least (negsuc 499999)) nothing_entered t Pass }
    ensures above { (t : ℕ) → ComesTo (at_least (negsuc 499998)) nothing_entered t Unsure }
{}
