// Lines behind others, so that what an error leaves in the sink is known.
ghost use Rattle.std.specs.Prelude.{◌≡◌, ◌++◌, OnOk};
ghost use Rattle.streams.specs.Buffers.{buffered, PutsLine};
ghost use Rattle.case_lines.specs.LineTexts.{line_text};

use crate::line::Line;
use std::fmt::Write as TextWrite;
use std::io::Write;
use std::{fmt, io};
use streams::buffer::LineBuffer;
use streams::sink::send;

// More than any line has.
const LINE_BYTES: usize = 96;

// Puts a line with its end behind what waits.
fn hold_line(buffer: &mut LineBuffer, line: Line) -> fmt::Result
    ensures { OnOk result (buffered buffer.new ≡ buffered buffer.old ++ line_text line) }
{
    writeln!(buffer, "{line}")?;
    Ok(())
}

// Puts a line behind what waits. Where there may be no room for it, what waits is sent first.
pub(crate) fn put_line<W: Write>(
    sink: &mut W,
    buffer: &mut LineBuffer,
    line: Line,
) -> io::Result<()>
    ensures { PutsLine (W.contents sink.old) (W.contents sink.new) (buffered buffer.old) (line_text line) (buffered buffer.new) result }
{
    if buffer.room() < LINE_BYTES {
        send(sink, buffer)?;
    }
    hold_line(buffer, line)?;
    Ok(())
}
