// What holds of every text, on the contract of a function.
ghost use Rattle.rules.specs.Grammar.{OneReading};
ghost use Rattle.rules.specs.Texts.{OneFaultPlace, OneRuleAnswer};

// Two derivations with the same tokens are one; tokens stop being the beginning of an expression at one place;
// and a text has one answer.
pub fn readings_are_one()
    ensures reading { OneReading }
    ensures place { OneFaultPlace }
    ensures answer { OneRuleAnswer }
{}
