// Reads a script from standard input, carries out its calls on a job, and prints the replies.
#![tactic(auto)]

mod printer;

ghost use Rattle.std.specs.Prelude.{◌≡◌};
ghost use Rattle.grades.specs.Ranges.{span};
ghost use Rattle.grades.specs.Worth.{worth};

use crate::printer::Printer;
use grades::grade::Grade;
use grades::range::Range;
use lent::blank::{BLANK_MARK, BLANK_WANT, blank_piece};
use lent::cells::Cells;
use pieces::piece::Piece;
use script_lines::fault::ScriptFault;
use script_lines::script::Script;
use script_lines::step::{MOST_MARKS, MOST_ROWS, MOST_WANTS};
use scripts::script::play_all;
use std::alloc::AllocError;
use std::io;
use std::io::Read;
use std::process::ExitCode;

// How many cells the program has: for the pieces of 16 lines, for the row lists of each kind of grade, for the want lists, and for the marks.
const PIECES: usize = 1024;

const ROWS: usize = MOST_ROWS as usize;

const WANTS: usize = MOST_WANTS as usize;

const MARKS: usize = MOST_MARKS as usize;

// What stands in a row cell before anything is written: from lowest to lowest.
fn lowest_row<G: Grade>() -> Piece<Range<G>>
    ensures start { result.start ≡ 0 }
    ensures value { worth G.kind G.value result.value ≡ span G.kind.lowest G.kind.lowest }
{
    Piece {
        start: 0,
        value: Range {
            lower: G::lowest(),
            upper: G::lowest(),
        },
    }
}

// Carries out the script's steps, and prints what each says.
fn carry_script(rt: &HostRuntime, script: &Script) -> io::Result<()> {
    let calls = script.calls(rt.alloc())?;
    // A program's cells are arrays of its own, handed on as slices.
    let mut pieces = [blank_piece(); PIECES];
    let mut truths = [lowest_row(); ROWS];
    let mut margins = [lowest_row(); ROWS];
    let mut wants = [BLANK_WANT; WANTS];
    let mut marks = [BLANK_MARK; MARKS];
    let mut cells = Cells {
        truths: &mut truths,
        margins: &mut margins,
        wants: &mut wants,
        marks: &mut marks,
    };
    let mut printer = Printer::new(rt, script);
    printer.go_on(&cells)?;
    let played = play_all(
        script.lines,
        &mut pieces,
        calls.as_slice(),
        &mut cells,
        &mut printer,
    );
    played.outcome
}

fn main(rt: HostRuntime) -> io::Result<ExitCode> {
    let mut text: Vec<u8> = Vec::new(rt.alloc());
    let _ = rt.stdin().read_to_end(&mut text)?;
    match Script::read(text.as_slice(), rt.alloc()) {
        Ok(script) => {
            carry_script(&rt, &script)?;
            Ok(ExitCode::SUCCESS)
        }
        Err(ScriptFault::BadLine { number }) => {
            eprintln!(rt; "bad line {number}")?;
            Ok(ExitCode::FAILURE)
        }
        Err(ScriptFault::NoMemory) => Err(io::Error::from(AllocError)),
    }
}
