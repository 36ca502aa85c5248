// Printing replies as they come.
use grades::margin::Margin;
use grades::range::Range;
use grades::truth::Truth;
use jobs::fault::{EnterFault, NoSuchLine};
use lent::cells::Cells;
use meaning::mark::Mark;
use pieces::piece::Piece;
use rules::fault::RuleFault;
use rules::rule::Rule;
use script_lines::script::Script;
use script_lines::step::{GradeKind, Step};
use scripts::call::Call;
use scripts::listener::Listener;
use scripts::reply::Reply;
use std::{fmt, io};

// The two ends of a range in truth.
#[derive(Clone, Copy)]
struct TruthEnds(Range<Truth>);

impl fmt::Display for TruthEnds {
    fn fmt<W: fmt::Write>(&self, f: &mut fmt::Formatter<W>) -> fmt::Result {
        let lower = self.0.lower.holds;
        let upper = self.0.upper.holds;
        write!(f, "{lower} {upper}")
    }
}

// The two ends of a range in margin.
#[derive(Clone, Copy)]
struct MarginEnds(Range<Margin>);

impl fmt::Display for MarginEnds {
    fn fmt<W: fmt::Write>(&self, f: &mut fmt::Formatter<W>) -> fmt::Result {
        let lower = self.0.lower.number();
        let upper = self.0.upper.number();
        write!(f, "{lower} {upper}")
    }
}

fn print_refusal(rt: &HostRuntime, number: u8) -> io::Result<()> {
    println!(rt; "refused {number}")
}

fn print_ok(rt: &HostRuntime) -> io::Result<()> {
    println!(rt; "ok")
}

fn print_marks(rt: &HostRuntime, marks: &[Mark]) -> io::Result<()> {
    for mark in marks {
        let Mark { row, first, after } = *mark;
        println!(rt; "{row} {first} {after}")?;
    }
    Ok(())
}

fn print_truths(rt: &HostRuntime, cells: &[Piece<Range<Truth>>], count: usize) -> io::Result<()> {
    for piece in cells.iter().take(count) {
        let start = piece.start;
        let ends = TruthEnds(piece.value);
        println!(rt; "{start} {ends}")?;
    }
    Ok(())
}

fn print_margins(rt: &HostRuntime, cells: &[Piece<Range<Margin>>], count: usize) -> io::Result<()> {
    for piece in cells.iter().take(count) {
        let start = piece.start;
        let ends = MarginEnds(piece.value);
        println!(rt; "{start} {ends}")?;
    }
    Ok(())
}

fn print_wants(rt: &HostRuntime, cells: &[Piece<bool>], count: usize) -> io::Result<()> {
    for piece in cells.iter().take(count) {
        let start = piece.start;
        let wanted = if piece.value { "yes" } else { "no" };
        println!(rt; "{start} {wanted}")?;
    }
    Ok(())
}

fn print_entered(rt: &HostRuntime, reply: Result<(), EnterFault>) -> io::Result<()> {
    match reply {
        Ok(()) => print_ok(rt),
        Err(fault) => print_refusal(rt, fault.number()),
    }
}

fn print_known(rt: &HostRuntime, reply: Result<u32, NoSuchLine>) -> io::Result<()> {
    match reply {
        Ok(tick) => println!(rt; "{tick}"),
        Err(fault) => print_refusal(rt, fault.number()),
    }
}

// What the reply says, with its marks.
fn print_reply(rt: &HostRuntime, reply: &Reply, cells: &Cells<'_>) -> io::Result<()> {
    match *reply {
        Reply::Entered(reply) => print_entered(rt, reply),
        Reply::Known(reply) => print_known(rt, reply),
        Reply::Tally(count) => println!(rt; "{count}"),
        Reply::Sealed => print_ok(rt),
        Reply::JudgedTruth(Ok(verdict)) => {
            let ends = TruthEnds(verdict);
            println!(rt; "{ends}")
        }
        Reply::JudgedMargin(Ok(verdict)) => {
            let ends = MarginEnds(verdict);
            println!(rt; "{ends}")
        }
        Reply::JudgedTruth(Err(fault)) | Reply::JudgedMargin(Err(fault)) => {
            print_refusal(rt, fault.number())
        }
        Reply::MarkedTruth(Ok(marking)) => {
            let ends = TruthEnds(marking.verdict);
            let count = marking.marks;
            println!(rt; "{ends} {count}")?;
            print_marks(rt, reply.marks(cells))
        }
        Reply::MarkedMargin(Ok(marking)) => {
            let ends = MarginEnds(marking.verdict);
            let count = marking.marks;
            println!(rt; "{ends} {count}")?;
            print_marks(rt, reply.marks(cells))
        }
        Reply::MarkedTruth(Err(fault)) | Reply::MarkedMargin(Err(fault)) => {
            print_refusal(rt, fault.number())
        }
    }
}

fn print_rule_refusal(rt: &HostRuntime, fault: RuleFault) -> io::Result<()> {
    let number = fault.number();
    let place = fault.place();
    println!(rt; "refused {number} byte {place}")
}

// What a step that is no call says.
fn print_note(rt: &HostRuntime, step: Step, cells: &Cells<'_>) -> io::Result<()> {
    match step {
        Step::RuleRead | Step::CellsSet => print_ok(rt),
        Step::RuleRefused(fault) => print_rule_refusal(rt, fault),
        Step::NoRule => println!(rt; "no rule"),
        Step::Show {
            kind: GradeKind::Truth,
            count,
        } => print_truths(rt, cells.truths, count),
        Step::Show {
            kind: GradeKind::Margin,
            count,
        } => print_margins(rt, cells.margins, count),
        Step::Wants { count } => print_wants(rt, cells.wants, count),
        Step::Enter(_)
        | Step::Known { .. }
        | Step::Tally
        | Step::Seal
        | Step::Judge { .. }
        | Step::Mark { .. } => Ok(()),
    }
}

// The steps that are not printed yet.
#[derive(Clone, Copy)]
pub(crate) struct Printer<'s> {
    rt: &'s HostRuntime,
    rules: &'s [Rule],
    left: &'s [Step],
}

impl<'s> Printer<'s> {
    pub(crate) fn new(rt: &'s HostRuntime, script: &'s Script) -> Printer<'s> {
        Printer {
            rt,
            rules: script.rules.as_slice(),
            left: script.steps.as_slice(),
        }
    }

    // Prints the steps up to the next call, in the cells as they are.
    pub(crate) fn go_on(&mut self, cells: &Cells<'_>) -> io::Result<()> {
        let rules = self.rules;
        let count = self
            .left
            .iter()
            .take_while(|step| step.call(rules).is_none())
            .count();
        for step in &self.left[..count] {
            print_note(self.rt, *step, cells)?;
        }
        self.left = &self.left[count..];
        Ok(())
    }
}

// A reply is that to the first of the steps that are left.
impl<'s> Listener for Printer<'s> {
    type Error = io::Error;

    ghost hears = { λ before call reply lent after outcome. Unit {0} };

    fn hear(&mut self, _call: &Call<'_>, reply: &Reply, cells: &Cells<'_>) -> io::Result<()> {
        print_reply(self.rt, reply, cells)?;
        if let [_, left @ ..] = self.left {
            self.left = left;
        }
        self.go_on(cells)
    }
}
