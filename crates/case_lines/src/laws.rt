// What holds of every case, on the contracts of functions.
ghost use Rattle.runs.specs.Families.{truth_and_margin};
ghost use Rattle.runs.specs.Law.{LawOfRuns};
ghost use Rattle.case_lines.specs.Laws.{OneListing, SomeListing, HasOneListing};
ghost use Rattle.case_lines.specs.Runs.{ListingsRun, RunsList};

use cases::reader::CaseReader;
use grades::margin::Margin;
use grades::truth::Truth;
use runs::family::Both;
use runs::law::runs_keep_the_law;

// With so many cells lent, a case has one listing at most; and it has one, once its fields up to the rule have an answer.
pub fn listings_are_one()
    ensures one { OneListing }
    ensures some { SomeListing }
{}

/// Every case has one listing, and only one, whatever cells are lent.
pub fn case_has_one_listing(case: &[u8])
    ensures { HasOneListing case.now }
{
    // Reading shows that the fields up to the rule have an answer, the rule text among them.
    match CaseReader::new(case) {
        Ok(mut reader) => {
            let _heading = reader.heading();
        }
        Err(_refusal) => {}
    }
}

// The listing of a case whose heading is read is what the replies of a run of calls print, in truth and in margin, and what they print is the
// listing. So what the law of runs says of every such run, nesting, exact grades and marks, holds of each listing.
pub fn listings_are_runs()
    ensures run { ListingsRun }
    ensures back { RunsList }
    ensures law { LawOfRuns truth_and_margin }
{
    runs_keep_the_law::<Both<Truth, Margin>>();
}
