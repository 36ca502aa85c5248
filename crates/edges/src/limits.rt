// Rules, ticks and cells at the edges of their limits, on one job.
use crate::report::Report;
use cases::field::Entry;
use compare::cells::{Cell, Measured, written};
use compare::entries::Pair;
use compare::lent::{Lent, Room};
use compare::marking::{AMPLE, Whole};
use compare::mismatch::{Mismatch, ensure};
use compare::question::Question;
use grades::margin::Margin;
use grades::truth::Truth;
use jobs::job::Job;
use judge::fault::MarkFault::Judging;
use judge::fault::{JudgeFault, MarkFault};
use judge::judging::judge;
use meaning::reading::Reading;
use pieces::piece::Piece;
use reference::forecast::Forecast;
use reference::values::Values;
use rules::fault::RuleFault;
use rules::rule::Rule;
use std::alloc::Global;
use std::io;

// The job has the lines a and b alone.
static NAMES: [&'static [u8]; 16] = [
    b"a", b"b", b"c", b"d", b"e", b"f", b"g", b"h", b"i", b"j", b"k", b"l", b"m", b"n", b"o", b"p",
];

static ENTRIES: [Entry; 4] = [
    Entry {
        line: 0,
        from: 0,
        to: 4,
        lower: -3,
        upper: 5,
    },
    Entry {
        line: 0,
        from: 4,
        to: 10,
        lower: 0,
        upper: 0,
    },
    Entry {
        line: 1,
        from: 0,
        to: 2,
        lower: 0,
        upper: 0,
    },
    Entry {
        line: 1,
        from: 2,
        to: 10,
        lower: 0,
        upper: 40,
    },
];

// A text, and why it is no rule, if it is none.
struct Text {
    rule: &'static str,
    fault: Option<RuleFault>,
}

static TEXTS: [Text; 9] = [
    Text {
        rule: "!!!!!!!!!!!!!!!!a>=1",
        fault: None,
    },
    Text {
        rule: "!!!!!!!!!!!!!!!!!a>=1",
        fault: Some(RuleFault::TooDeep { at: 16 }),
    },
    Text {
        rule: "G[0,500000000]a>=1",
        fault: None,
    },
    Text {
        rule: "G[500000000,500000000]a>=1",
        fault: None,
    },
    Text {
        rule: "G[0,500000001]a>=1",
        fault: Some(RuleFault::OutOfBounds { at: 2 }),
    },
    Text {
        rule: "F[0,1]G[0,500000000]a>=1",
        fault: Some(RuleFault::TooFar),
    },
    Text {
        rule: "G[0,250000000]F[0,250000000]a>=1",
        fault: None,
    },
    Text {
        rule: "(a>=1U[0,1]G[0,499999999]b>=2)",
        fault: None,
    },
    Text {
        rule: "(a>=1U[0,1]G[0,500000000]b>=2)",
        fault: Some(RuleFault::TooFar),
    },
];

// Prints the number of each refusal; 0 if the text is read.
pub(crate) fn check_texts(report: &mut Report<'_>) -> io::Result<()> {
    for text in &TEXTS {
        let fault = Rule::read(text.rule.as_bytes(), &NAMES).err();
        let number = fault.map_or(0, RuleFault::number);
        report.note(text.rule, number, fault == text.fault)?;
    }
    Ok(())
}

fn read_rule(text: &str) -> Result<Rule, Mismatch> {
    Rule::read(text.as_bytes(), &NAMES).map_err(|_| Mismatch::Rule)
}

// A rule and a tick that are judged and marked with every number of cells up to enough.
struct Asked {
    rule: &'static str,
    tick: u32,
}

static ASKED: [Asked; 8] = [
    Asked {
        rule: "G[0,3](b<=0|a>=1)",
        tick: 0,
    },
    Asked {
        rule: "(a>=0U[0,3]b>=1)",
        tick: 0,
    },
    Asked {
        rule: "((a>=0U[1,5]!b>=20)U[0,4]F[1,2](a<=1&b<=3))",
        tick: 1,
    },
    Asked {
        rule: "!!!!!!!!!!!!!!!!a>=1",
        tick: 1,
    },
    Asked {
        rule: "G[0,500000000]a>=0",
        tick: 500_000_000,
    },
    Asked {
        rule: "(a>=0U[2,500000000]b<=5)",
        tick: 500_000_000,
    },
    Asked {
        rule: "F[0,250000000]G[0,250000000](a>=0&b>=3)",
        tick: 3,
    },
    Asked {
        rule: "a>=-500000",
        tick: 0,
    },
];

// Judges and marks with 0 cells up to more than enough, of each kind alone; gives how many the whole lists take.
fn try_rooms<G: Measured>(question: Question<'_, '_>, whole: &Whole<G>) -> Result<Room, Mismatch> {
    let used = whole.used;
    let rows = written(whole.lent.rows.as_slice());
    let most = used.rows.max(used.wants).max(used.marks);
    for k in 0..most.saturating_add(2) {
        question.judge_in(rows, k)?;
        question.mark_in(whole, Room { rows: k, ..used })?;
        question.mark_in(whole, Room { wants: k, ..used })?;
        question.mark_in(whole, Room { marks: k, ..used })?;
    }
    Ok(used)
}

impl Asked {
    // The cells that the whole lists take, if all agrees.
    fn ask<G: Measured>(&self, heap: Global, pair: &Pair<'_>) -> Result<Room, Mismatch> {
        let rule = read_rule(self.rule)?;
        let question = Question {
            heap,
            job: &pair.job,
            rule: &rule,
            tick: self.tick,
        };
        let values = Values::of::<G::Scale>(rule.rows(), &pair.forecast);
        question.check_judge::<G>(&values)?;
        let whole = question.check_mark::<G>(&values)?;
        try_rooms(question, &whole)
    }
}

fn check_asked(report: &mut Report<'_>, pair: &Pair<'_>) -> io::Result<()> {
    for asked in &ASKED {
        let used = asked.ask::<Truth>(report.rt.alloc(), pair);
        report.note(asked.rule, used, used.is_ok())?;
        let used = asked.ask::<Margin>(report.rt.alloc(), pair);
        report.note(asked.rule, used, used.is_ok())?;
    }
    let alike = pair.alike();
    report.note("the job is as it was", alike, alike)
}

// What the case is about, a rule, a tick, the cells lent, and why it is not marked, if it is not.
struct Refusal {
    about: &'static str,
    rule: &'static str,
    tick: u32,
    room: Room,
    fault: Option<MarkFault>,
}

const NONE: Room = Room {
    rows: 0,
    wants: 0,
    marks: 0,
};

static REFUSALS: [Refusal; 17] = [
    Refusal {
        about: "the last line",
        rule: "b>=0",
        tick: 0,
        room: AMPLE,
        fault: None,
    },
    Refusal {
        about: "the line behind it",
        rule: "c>=0",
        tick: 0,
        room: AMPLE,
        fault: Some(Judging(JudgeFault::NoSuchLine)),
    },
    Refusal {
        about: "the sixteenth line",
        rule: "p>=0",
        tick: 0,
        room: AMPLE,
        fault: Some(Judging(JudgeFault::NoSuchLine)),
    },
    Refusal {
        about: "no such line on the right",
        rule: "a>=0&c>=0",
        tick: 0,
        room: AMPLE,
        fault: Some(Judging(JudgeFault::NoSuchLine)),
    },
    Refusal {
        about: "no such line on the left",
        rule: "c>=0&a>=0",
        tick: 0,
        room: AMPLE,
        fault: Some(Judging(JudgeFault::NoSuchLine)),
    },
    Refusal {
        about: "no such line far below",
        rule: "!G[0,3](a>=0U[0,1]c>=0)",
        tick: 0,
        room: AMPLE,
        fault: Some(Judging(JudgeFault::NoSuchLine)),
    },
    Refusal {
        about: "line goes before tick and cells",
        rule: "c>=0",
        tick: 500_000_001,
        room: NONE,
        fault: Some(Judging(JudgeFault::NoSuchLine)),
    },
    Refusal {
        about: "the last tick",
        rule: "a>=0",
        tick: 500_000_000,
        room: AMPLE,
        fault: None,
    },
    Refusal {
        about: "the tick behind it",
        rule: "a>=0",
        tick: 500_000_001,
        room: AMPLE,
        fault: Some(Judging(JudgeFault::LateTick)),
    },
    Refusal {
        about: "the greatest tick",
        rule: "a>=0",
        tick: u32::MAX,
        room: AMPLE,
        fault: Some(Judging(JudgeFault::LateTick)),
    },
    Refusal {
        about: "tick goes before cells",
        rule: "a>=0",
        tick: 500_000_001,
        room: NONE,
        fault: Some(Judging(JudgeFault::LateTick)),
    },
    Refusal {
        about: "no cells",
        rule: "a>=0",
        tick: 0,
        room: NONE,
        fault: Some(Judging(JudgeFault::RowCells)),
    },
    Refusal {
        about: "no row cells",
        rule: "a>=0",
        tick: 0,
        room: Room {
            rows: 0,
            wants: 8,
            marks: 8,
        },
        fault: Some(Judging(JudgeFault::RowCells)),
    },
    Refusal {
        about: "no want and mark cells",
        rule: "a>=0",
        tick: 0,
        room: Room {
            rows: 8,
            wants: 0,
            marks: 0,
        },
        fault: Some(MarkFault::WantCells),
    },
    Refusal {
        about: "no want cells",
        rule: "a>=0",
        tick: 0,
        room: Room {
            rows: 8,
            wants: 0,
            marks: 8,
        },
        fault: Some(MarkFault::WantCells),
    },
    Refusal {
        about: "no mark cells",
        rule: "a>=0",
        tick: 0,
        room: Room {
            rows: 8,
            wants: 8,
            marks: 0,
        },
        fault: Some(MarkFault::MarkCells),
    },
    Refusal {
        about: "cells enough",
        rule: "a>=0",
        tick: 0,
        room: Room {
            rows: 8,
            wants: 8,
            marks: 8,
        },
        fault: None,
    },
];

impl Refusal {
    // Why it is not judged with the same row cells, if it is not.
    fn judge_fault(&self) -> Option<JudgeFault> {
        match self.fault {
            Some(Judging(fault)) => Some(fault),
            _ => None,
        }
    }

    // Cells are as they were if the refusal is not for want of cells.
    fn check_kept<G: Measured>(&self, lent: &Lent<G>) -> Result<(), Mismatch> {
        match self.judge_fault() {
            Some(JudgeFault::NoSuchLine | JudgeFault::LateTick) => {
                ensure(lent.blank_behind(NONE), Mismatch::Behind)
            }
            _ => Ok(()),
        }
    }

    // Judges and marks, and compares how that is turned down.
    fn check<G: Measured>(&self, heap: Global, job: &Job<'_>) -> Result<(), Mismatch> {
        let rule = read_rule(self.rule)?;
        let question = Question {
            heap,
            job,
            rule: &rule,
            tick: self.tick,
        };
        let mut lent = Lent::<G>::blank(heap, self.room)?;
        let judged = judge::<G>(job, &rule, self.tick, lent.rows.as_mut_slice());
        ensure(judged.err() == self.judge_fault(), Mismatch::Refusal)?;
        self.check_kept(&lent)?;
        let marked = lent.mark(&question);
        ensure(marked.err() == self.fault, Mismatch::Refusal)?;
        self.check_kept(&lent)
    }
}

// Prints the number of each refusal; 0 if there is none.
fn check_refusals(report: &mut Report<'_>, job: &Job<'_>) -> io::Result<()> {
    for refusal in &REFUSALS {
        let truth = refusal.check::<Truth>(report.rt.alloc(), job);
        let margin = refusal.check::<Margin>(report.rt.alloc(), job);
        let number = refusal.fault.map_or(0, MarkFault::number);
        report.note(refusal.about, number, truth.is_ok() && margin.is_ok())?;
    }
    Ok(())
}

// Whether all entries are accepted, and made as the reference makes them.
fn enter_all(pair: &mut Pair<'_>) -> bool {
    ENTRIES
        .iter()
        .all(|entry| matches!(pair.enter(*entry), Ok(Ok(()))))
}

// Asks an open job, and asks again once it is sealed.
pub(crate) fn check_limits(report: &mut Report<'_>) -> io::Result<()> {
    let mut cells = [<Piece<Reading> as Cell>::blank(); 128];
    let mut pair = Pair {
        job: Job::open(2, &mut cells),
        forecast: Forecast::new(2),
    };
    let entered = enter_all(&mut pair);
    report.note("entries", entered, entered)?;
    check_refusals(report, &pair.job)?;
    check_asked(report, &pair)?;
    pair.job.seal();
    pair.forecast.sealed = true;
    check_asked(report, &pair)
}
