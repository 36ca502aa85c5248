// The whole program, from a source to a sink.
ghost use Rattle.std.specs.Prelude.{◌≡◌, [], IfSome, OnOk};
ghost use Rattle.rules.specs.Texts.{answer_of};
ghost use Rattle.rule_lines.specs.Listing.{listing_of};
ghost use Rattle.rule_check.specs.Shows.{ShowsRule};
ghost use Rattle.streams.specs.Fronts.{WritesFront};
ghost use Rattle.streams.specs.Buffers.{buffered};

use crate::reading::hear_out;
use rule_lines::listing::Listing;
use rules::fault::RuleFault;
use rules::rule::Rule;
use std::fmt::Write as TextWrite;
use std::io::{Read, Write};
use std::{fmt, io};
use streams::buffer::LineBuffer;
use streams::sink::send;

// Puts the listing of the answer where nothing waits. A listing has at most 65 lines of at most 40 bytes.
fn hold_listing(buffer: &mut LineBuffer, answer: Result<Rule, RuleFault>) -> fmt::Result
    requires { buffered buffer.old ≡ [] }
    ensures { OnOk result (buffered buffer.new ≡ listing_of (answer_of answer)) }
{
    let listing = Listing(answer);
    write!(buffer, "{listing}")?;
    Ok(())
}

// Writes the listing of the answer.
fn write_answer<W: Write>(sink: &mut W, answer: Result<Rule, RuleFault>) -> io::Result<()>
    ensures { WritesFront (W.contents sink.old) (W.contents sink.new) (listing_of (answer_of answer)) result }
{
    let mut buffer = LineBuffer::new();
    hold_listing(&mut buffer, answer)?;
    send(sink, &mut buffer)
}

/// Reads names and a rule text from the source, up to its end, writes the rule's rows or its refusal to the sink, and answers whether the text
/// is a rule. An interrupted read or write is tried again; any other error of either ends it, and the sink has got a beginning of the text then.
pub fn run<R: Read, W: Write>(source: &mut R, sink: &mut W) -> io::Result<bool>
    ensures { IfSome (R.remaining source.old) (λ xs. ShowsRule (W.contents sink.old) (W.contents sink.new) xs result) }
{
    let input = hear_out(source)?;
    let answer = input.answer();
    write_answer(sink, answer)?;
    Ok(answer.is_ok())
}
