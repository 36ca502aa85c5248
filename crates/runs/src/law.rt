// The law of runs, whole, on one contract.
ghost use Rattle.runs.specs.Law.{LawOfRuns};

use crate::family::Kinds;

// Every list of calls on a job just opened, turned-down calls included, has exactly one run. Its readings are what the accepted
// entries have set. Verdicts only narrow and hold the exact grade of every exact job inside, and marks suffice.
pub fn runs_keep_the_law<F: Kinds>()
    ensures { LawOfRuns F.kinds }
{}
