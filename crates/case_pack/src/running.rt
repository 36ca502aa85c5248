// The whole program, from a source to a sink.
ghost use Rattle.std.specs.Prelude.{IfSome};
ghost use Rattle.case_pack.specs.Running.{PacksInto};

use case_text::{BadLine, pack};
use std::alloc::Global;
use std::io;
use std::io::{Read, Write};
use streams::sink::write_front;

/// Reads a text from the source, to its end, and writes the case that it packs into to the sink; or answers the first bad line, and writes
/// nothing. An error is one of reading, want of memory for the text among them, and nothing is written then; or one of writing, and the sink has got
/// a beginning of the case.
pub fn run<R: Read, W: Write>(
    source: &mut R,
    sink: &mut W,
    heap: Global,
) -> io::Result<Result<(), BadLine>>
    ensures { IfSome (R.remaining source.old) (λ text. PacksInto text (W.contents sink.old) (W.contents sink.new) result) }
{
    let mut text: Vec<u8> = Vec::new(heap);
    let _ = source.read_to_end(&mut text)?;
    match pack(text.as_slice()) {
        Ok(case) => {
            write_front(sink, case.as_slice())?;
            Ok(Ok(()))
        }
        Err(fault) => Ok(Err(fault)),
    }
}
