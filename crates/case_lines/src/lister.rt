// The listing of a case, line by line, with no memory asked for.
ghost use Rattle.std.specs.Prelude.{◌≡◌, ℕ, ◌+◌, ◌<◌, List, [], ◌∷◌, ◌++◌, true, take, drop, IfSome, IsNone, MatchOption};
ghost use Rattle.rules.specs.Texts.{table_of};
ghost use Rattle.cases.specs.Readers.{left_of, next_of};
ghost use Rattle.jobs.specs.Jobs.{state_of, SameLoan};
ghost use Rattle.runs.specs.States.{State, opened, line_count};
ghost use Rattle.lent.specs.Holding.{Contents, contents, counts, SameLoans};
ghost use Rattle.case_lines.specs.Listings.{Listing};
ghost use Rattle.case_lines.specs.Leaves.{FieldsLeave, CarriedOn};
ghost use Rattle.case_lines.specs.LineTexts.{line_text};
ghost use Rattle.case_lines.specs.Rests.{HeadingRead, RestPrints, RestLeaves, marks_waiting, work_left};

use crate::carrying::carry_step;
use crate::field_lister::FieldLister;
use crate::line::{Line, refusal_of};
use crate::opening::Opening;
use jobs::job::Job;
use lent::cells::Cells;
use meaning::mark::Mark;

// The first of the marks from `first` up to `after`.
fn mark_at(cells: &Cells<'_>, first: usize, after: usize) -> Option<Mark>
    ensures marks { MatchOption result (drop first (take after cells.now.marks.now) ≡ []) (λ m. drop first (take after cells.now.marks.now) ≡ m ∷ drop (first + 1) (take after cells.now.marks.now)) }
    ensures some { IfSome result (λ m. first < after) }
{
    if first >= after {
        return None;
    }
    let mark = cells.marks.get(first)?;
    Some(*mark)
}

impl<'c, 'j, 'k, 'p, 'l> FieldLister<'c, 'j, 'k, 'p, 'l> {
    /// Behind a heading that was read, with its job just opened.
    pub fn new(
        opening: Opening<'c>,
        job: &'j mut Job<'p>,
        cells: &'k mut Cells<'l>,
    ) -> FieldLister<'c, 'j, 'k, 'p, 'l>
        ensures prints { (case text : List ℕ) (lines : ℕ) → HeadingRead case opening.entry → state_of job.old ≡ opened (line_count opening.entry.heading.lines lines) → RestPrints result text → Listing (record { pieces = lines; cells = counts cells.old }) case text }
        ensures only { (case text : List ℕ) (lines : ℕ) → HeadingRead case opening.entry → state_of job.old ≡ opened (line_count opening.entry.heading.lines lines) → Listing (record { pieces = lines; cells = counts cells.old }) case text → RestPrints result text }
        ensures job { result.job.now ≡ job.old }
        ensures same_job { result.job.ghost_name ≡ job.entry.ghost_name }
        ensures cells { result.cells.now ≡ cells.old }
        ensures same_cells { result.cells.ghost_name ≡ cells.entry.ghost_name }
        ensures leaves { (z : State) (after : Contents) → RestLeaves result z after → FieldsLeave (table_of opening.entry.heading.rule) (next_of opening.entry.reader) (state_of job.old) (left_of opening.entry.reader) z (contents cells.old) after }
    {
        FieldLister {
            reader: opening.reader,
            job,
            rule: opening.heading.rule,
            cells,
            first: 0,
            after: 0,
            over: false,
        }
    }

    // The next mark that waits.
    fn next_mark(&mut self) -> Option<Mark>
        ensures marks { MatchOption result ((marks_waiting self.old ≡ []) × (self.new ≡ self.old)) (λ m. marks_waiting self.old ≡ m ∷ marks_waiting self.new) }
        ensures same { self.new ≡ record self.old { first = self.new.first } }
    {
        let mark = mark_at(self.cells, self.first, self.after)?;
        self.first += 1;
        Some(mark)
    }

    // The next line that a field prints, where no mark waits.
    fn next_step(&mut self) -> Option<Line>
        requires { marks_waiting self.old ≡ [] }
        ensures prints { MatchOption result (RestPrints self.old []) (λ line. (more : List ℕ) → RestPrints self.new more → RestPrints self.old (line_text line ++ more)) }
        ensures only { (text : List ℕ) → RestPrints self.old text → MatchOption result (text ≡ []) (λ line. (more : List ℕ) × RestPrints self.new more × (text ≡ line_text line ++ more)) }
        ensures over { IsNone result → self.new.over ≡ true }
        ensures fewer { IfSome result (λ line. work_left self.new < work_left self.old) }
        ensures kept { counts self.new.cells.now ≡ counts self.old.cells.now }
        ensures leaves { (z : State) (after : Contents) → RestLeaves self.new z after → RestLeaves self.old z after }
        ensures pieces { CarriedOn self.old.job.now self.new.job.now }
        ensures loan { SameLoan self.old.job.now self.new.job.now }
        ensures loans { SameLoans self.old.cells.now self.new.cells.now }
        ensures same_job { self.new.job.ghost_name ≡ self.old.job.ghost_name }
        ensures same_cells { self.new.cells.ghost_name ≡ self.old.cells.ghost_name }
    {
        // None waits any more.
        self.first = 0;
        self.after = 0;
        while !self.over {
            match self.reader.step() {
                Ok(None) => self.over = true,
                Err(refusal) => {
                    self.over = true;
                    return Some(refusal_of(refusal));
                }
                Ok(Some(step)) => {
                    let printed = carry_step(self.job, &self.rule, step, self.cells);
                    if let Some(printed) = printed {
                        self.after = printed.marks;
                        return Some(printed.line);
                    }
                }
            }
        }
        None
    }

    /// The next line. Behind the last, there is none, and what the job and the cells hold is what the case leaves.
    pub fn next(&mut self) -> Option<Line>
        ensures prints { MatchOption result (RestPrints self.old []) (λ line. (more : List ℕ) → RestPrints self.new more → RestPrints self.old (line_text line ++ more)) }
        ensures only { (text : List ℕ) → RestPrints self.old text → MatchOption result (text ≡ []) (λ line. (more : List ℕ) × RestPrints self.new more × (text ≡ line_text line ++ more)) }
        ensures over { IsNone result → self.new.over ≡ true }
        ensures fewer { IfSome result (λ line. work_left self.new < work_left self.old) }
        ensures kept { counts self.new.cells.now ≡ counts self.old.cells.now }
        ensures leaves { (z : State) (after : Contents) → RestLeaves self.new z after → RestLeaves self.old z after }
        ensures pieces { CarriedOn self.old.job.now self.new.job.now }
        ensures loan { SameLoan self.old.job.now self.new.job.now }
        ensures loans { SameLoans self.old.cells.now self.new.cells.now }
        ensures same_job { self.new.job.ghost_name ≡ self.old.job.ghost_name }
        ensures same_cells { self.new.cells.ghost_name ≡ self.old.cells.ghost_name }
    {
        match self.next_mark() {
            Some(mark) => Some(Line::Marked(mark)),
            None => self.next_step(),
        }
    }
}
