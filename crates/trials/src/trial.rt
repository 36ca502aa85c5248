// One random trial: a rule, a job, and what is asked of them.
use crate::counts::Counts;
use crate::dice::Dice;
use crate::entries::random_entry;
use crate::texts::{Place, Writer};
use compare::cells::Measured;
use compare::entries::Pair;
use compare::marking::Whole;
use compare::mismatch::{Mismatch, ensure};
use compare::question::Question;
use grades::margin::Margin;
use grades::truth::Truth;
use jobs::job::Job;
use meaning::reading::Reading;
use pieces::piece::Piece;
use reference::forecast::Forecast;
use reference::values::Values;
use rules::fault::RuleFault;
use rules::rule::Rule;
use std::alloc::Global;

static NAMES: [&'static [u8]; 3] = [b"a", b"b", b"c"];

// A rule that is asked at a tick, while entries go on.
#[derive(Drop)]
pub(crate) struct Case<'r, 'a> {
    pub(crate) heap: Global,
    pub(crate) pair: Pair<'a>,
    pub(crate) rule: &'r Rule,
    pub(crate) tick: u32,
}

impl<'a> Case<'_, 'a> {
    pub(crate) fn question(&self) -> Question<'_, 'a> {
        Question {
            heap: self.heap,
            job: &self.pair.job,
            rule: self.rule,
            tick: self.tick,
        }
    }

    pub(crate) fn values<G: Measured>(&self) -> Values {
        Values::of::<G::Scale>(self.rule.rows(), &self.pair.forecast)
    }
}

#[derive(Drop)]
pub(crate) struct Trials {
    pub(crate) heap: Global,
    pub(crate) dice: Dice,
    pub(crate) counts: Counts,
}

impl Trials {
    // Makes some random entries, and now and then seals the job.
    fn enter_some(&mut self, pair: &mut Pair<'_>) -> Result<(), Mismatch> {
        for _ in 0..self.dice.below(24) {
            let entry = random_entry(&mut self.dice, &pair.forecast);
            match pair.enter(entry)? {
                Ok(()) => self.counts.accepted.add(1),
                Err(_) => self.counts.refused.add(1),
            }
        }
        if self.dice.one_in(16) {
            pair.job.seal();
            pair.forecast.sealed = true;
        }
        Ok(())
    }

    // Judges and marks in one kind of grade.
    fn mark_as<G: Measured>(&mut self, case: &Case<'_, '_>) -> Result<Whole<G>, Mismatch> {
        let values = case.values::<G>();
        let question = case.question();
        let verdict = question.check_judge::<G>(&values)?;
        let whole = question.check_mark::<G>(&values)?;
        self.counts.markings.add(1);
        self.counts.settled.add(verdict.settled() as usize);
        self.counts.marks.add(whole.used.marks);
        Ok(whole)
    }

    // Marks in one kind of grade, and sees what entries then do.
    fn follow_as<G: Measured>(&mut self, case: &mut Case<'_, '_>) -> Result<(), Mismatch> {
        let whole = self.mark_as::<G>(case)?;
        let last = self.narrow(case, &whole)?;
        self.settle(case, &whole, last)
    }

    // Judges and marks in two kinds of grade, and follows the second.
    fn ask_in<G: Measured, H: Measured>(
        &mut self,
        case: &mut Case<'_, '_>,
    ) -> Result<(), Mismatch> {
        let question = case.question();
        if let Some(fault) = question.bar(case.pair.forecast.lines) {
            self.counts.turned_down.add(1);
            return question.check_bar::<G>(fault);
        }
        self.mark_as::<G>(case)?;
        self.follow_as::<H>(case)
    }

    // Mostly a tick by the horizon, now and then a late one.
    fn random_tick(&mut self) -> u32 {
        if self.dice.one_in(16) {
            500_000_003u32.saturating_sub(self.dice.below(6))
        } else {
            self.dice.below(52)
        }
    }

    // Enters readings on a new job, and asks the rule for verdicts and marks.
    fn ask_rule(&mut self, lines: u32, rule: &Rule) -> Result<(), Mismatch> {
        let blank = Piece {
            start: 9,
            value: Reading::widest(),
        };
        let mut cells = [blank; 192];
        let job = Job::open(lines as usize, &mut cells);
        let forecast = Forecast::new(job.lines());
        let mut pair = Pair { job, forecast };
        self.counts.rules.add(1);
        self.enter_some(&mut pair)?;
        let mut case = Case {
            heap: self.heap,
            pair,
            rule,
            tick: self.random_tick(),
        };
        if self.dice.one_in(2) {
            self.ask_in::<Truth, Margin>(&mut case)
        } else {
            self.ask_in::<Margin, Truth>(&mut case)
        }
    }

    // Writes a random rule, and asks it on a random job.
    pub(crate) fn run(&mut self, text: &mut String, huge: bool) -> Result<(), Mismatch> {
        let lines = if self.dice.one_in(64) {
            0
        } else {
            self.dice.below(3).saturating_add(1)
        };
        let depth = self.dice.below(5);
        let mut rows = Vec::new(self.heap);
        let mut writer = Writer {
            dice: &mut self.dice,
            text,
            rows: &mut rows,
            lines,
            huge,
            mixed: &mut self.counts.mixed,
            grouped: &mut self.counts.grouped,
        };
        let reach = writer.write_rule(depth, Place::Alone)?.reach;
        match Rule::read(text.as_bytes(), &NAMES) {
            Ok(rule) => {
                // The rows that were drawn, whatever brackets the text has.
                ensure(rule.rows() == rows.as_slice(), Mismatch::Rule)?;
                ensure(rule.reach() as u64 == reach, Mismatch::Rule)?;
                self.ask_rule(lines, &rule)
            }
            Err(fault) => {
                self.counts.too_far.add(1);
                ensure(
                    fault == RuleFault::TooFar && reach > 500_000_000,
                    Mismatch::Rule,
                )
            }
        }
    }
}
