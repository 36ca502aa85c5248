// What entries do to a verdict, by the marks that it had.
use crate::entries::random_entry;
use crate::trial::{Case, Trials};
use cases::field::Entry;
use compare::cells::{Measured, ends_of};
use compare::lent::Lent;
use compare::marking::{AMPLE, Whole};
use compare::mismatch::{Mismatch, ensure};
use jobs::fault::EnterFault;
use jobs::job::Job;
use meaning::mark::Mark;
use reference::ends::Ends;
use rules::row::Row;

// The line that the marked row tests.
fn line_of(rows: &[Row], mark: Mark) -> Option<u8> {
    match rows.get(mark.row) {
        Some(Row::Test { line, .. }) => Some(*line),
        _ => None,
    }
}

// Whether the entry touches one of the marks.
fn touches(rows: &[Row], marks: &[Mark], entry: Entry) -> bool {
    marks.iter().any(|mark| {
        line_of(rows, *mark) == Some(entry.line) && mark.first < entry.to && entry.from < mark.after
    })
}

impl Case<'_, '_> {
    // The verdict after an entry: inside the last one, and the marked one while that stands.
    fn compare_verdicts<G: Measured>(
        &self,
        last: Ends,
        standing: Option<Ends>,
    ) -> Result<Ends, Mismatch> {
        let values = self.values::<G>();
        let verdict = self.question().check_judge::<G>(&values)?;
        ensure(verdict.inside(last), Mismatch::Nested)?;
        ensure(
            standing.is_none_or(|marked| verdict == marked),
            Mismatch::Untouched,
        )?;
        Ok(verdict)
    }

    // Marks again: the verdict is now settled, inside the last one, and has no marks.
    fn check_settled<G: Measured>(&self, last: Ends) -> Result<(), Mismatch> {
        let mut lent = Lent::<G>::blank(self.heap, AMPLE)?;
        let Ok(marking) = lent.mark(&self.question()) else {
            return Err(Mismatch::Refusal);
        };
        let verdict = ends_of(marking.verdict);
        ensure(verdict.settled() && marking.marks == 0, Mismatch::Settled)?;
        ensure(verdict.inside(last), Mismatch::Nested)
    }
}

impl Trials {
    // Makes the line's readings exact from the mark's first tick to its last, each by one of its ends.
    fn make_exact(&mut self, job: &mut Job<'_>, line: u8, mark: Mark) -> Result<(), EnterFault> {
        let mut t = mark.first;
        // No line has more pieces. By count: each step goes on at the tick where the last ended, which the job tells.
        for _ in 0..64 {
            if t >= mark.after {
                return Ok(());
            }
            let Some((reading, next)) = job.reading(line, t as u64) else {
                return Err(EnterFault::NoSuchLine);
            };
            let end = next.map_or(mark.after, |next| next.min(mark.after));
            let number = if self.dice.one_in(2) {
                reading.lower()
            } else {
                reading.upper()
            };
            job.enter(line, t, end, number, number)?;
            t = end;
        }
        if t < mark.after {
            return Err(EnterFault::TooManyPieces);
        }
        Ok(())
    }

    // Makes all marked readings exact.
    fn make_marked_exact(
        &mut self,
        job: &mut Job<'_>,
        rows: &[Row],
        marks: &[Mark],
    ) -> Result<(), EnterFault> {
        for mark in marks {
            let line = line_of(rows, *mark).ok_or(EnterFault::NoSuchLine)?;
            self.make_exact(job, line, *mark)?;
        }
        Ok(())
    }

    // Makes some entries one by one, and gives the last verdict.
    pub(crate) fn narrow<G: Measured>(
        &mut self,
        case: &mut Case<'_, '_>,
        whole: &Whole<G>,
    ) -> Result<Ends, Mismatch> {
        let mut last = whole.verdict;
        let mut standing = Some(whole.verdict);
        for _ in 0..4 {
            let entry = random_entry(&mut self.dice, &case.pair.forecast);
            if case.pair.enter(entry)?.is_ok() {
                if touches(case.rule.rows(), whole.marks(), entry) {
                    standing = None;
                }
                last = case.compare_verdicts::<G>(last, standing)?;
                self.counts.narrowed.add(1);
                self.counts.untouched.add(standing.is_some() as usize);
            }
        }
        Ok(last)
    }

    // Makes all marked readings exact, where the job takes that, and sees that they settle the verdict.
    pub(crate) fn settle<G: Measured>(
        &mut self,
        case: &mut Case<'_, '_>,
        whole: &Whole<G>,
        last: Ends,
    ) -> Result<(), Mismatch> {
        let made = self.make_marked_exact(&mut case.pair.job, case.rule.rows(), whole.marks());
        if made.is_err() {
            self.counts.unable.add(1);
            return Ok(());
        }
        self.counts.exact.add(1);
        case.check_settled::<G>(last)
    }
}
