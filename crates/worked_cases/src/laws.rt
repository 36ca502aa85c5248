// What holds of the worked cases, on the contracts of functions.
ghost use Rattle.std.specs.Prelude.{ℕ, negsuc};
ghost use Rattle.meaning.specs.declared.reading.Reading.{Reading};
ghost use Rattle.meaning.specs.declared.outcome.Outcome.TheVariants.{Pass, Fail, Unsure};
ghost use Rattle.meaning.specs.Cases.{forecast, refined, nothing_entered, p_then_q};
ghost use Rattle.case_lines.specs.Listings.{Listing, lent_cells};
ghost use Rattle.worked_cases.specs.RuleTexts.{hot_and_flow, guard_text, p_and_q, until_text, only_a, lowest_text, above_text, TextComesTo};
ghost use Rattle.worked_cases.specs.WorkedCase.{worked_bytes, worked_lines};

// The texts of the worked rules are read, and come to these verdicts: a guard over four ticks on a forecast, then on a finer one; an until whose left
// side fails at the tick of its right side, and one that holds; and tests at the lowest readings with nothing entered.
pub fn worked_texts_are_judged()
    ensures unsure { TextComesTo hot_and_flow guard_text forecast 0 Unsure }
    ensures pass { TextComesTo hot_and_flow guard_text refined 0 Pass }
    ensures late { (r : Reading) → TextComesTo p_and_q until_text (p_then_q r 2) 0 Fail }
    ensures timely { (r : Reading) → TextComesTo p_and_q until_text (p_then_q r 1) 0 Pass }
    ensures lowest { (t : ℕ) → TextComesTo only_a lowest_text nothing_entered t Pass }
    ensures above { (t : ℕ) → TextComesTo only_a above_text nothing_entered t Unsure }
{}

// The bytes of the worked case have these five lines as their listing, over the cells of the program.
pub fn worked_case_is_listed()
    ensures { Listing (lent_cells 1024 1024 1024 1024 256) worked_bytes worked_lines }
{}
