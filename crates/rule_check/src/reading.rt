// Hearing a source to its end.
ghost use Rattle.std.specs.Prelude.{IfOk, IfSome};
ghost use Rattle.rule_lines.specs.Kept.{Heard};

use rule_lines::input::Input;
use std::io;
use std::io::Read;
use streams::source::fill;

// How much of the input is read at a time.
const CHUNK_BYTES: usize = 4096;

// What is kept of all that the source has.
pub(crate) fn hear_out<R: Read>(source: &mut R) -> io::Result<Input>
    ensures { IfOk result (λ input. IfSome (R.remaining source.old) (λ xs. Heard xs input)) }
{
    let mut input = Input::new();
    let mut chunk = [0u8; CHUNK_BYTES];
    // Chunks are counted, so that the loop is seen to end.
    for _ in 0..u64::MAX {
        let size = fill(source, &mut chunk)?;
        input.hear_all(&chunk[..size]);
        if size < CHUNK_BYTES {
            return Ok(input);
        }
    }
    Err(io::Error::from(io::ErrorKind::Interrupted))
}
