// Reading from a source.
ghost use Rattle.std.specs.Prelude.{ℕ, ◌<◌, ◌≤◌, List, length, take, IfOk, IfErr};
ghost use Rattle.std.specs.Io.KnownBytes.{Consumes, IsAtEnd};

use std::io;
use std::io::Read;

/// Fills the buffer from the source, up to the source's end, and answers how many bytes came. An interrupted read is tried again. What a read
/// leaves behind the bytes that it gives is not known of every source. At an error the source has given no more bytes than the buffer has room
/// for.
pub fn fill<R: Read>(source: &mut R, buffer: &mut [u8]) -> io::Result<usize>
    ensures fits { IfOk result (λ n. n ≤ length buffer.old) }
    ensures bytes { IfOk result (λ n. Consumes (R.remaining source.old) (R.remaining source.new) (take n buffer.new)) }
    ensures end { IfOk result (λ n. n < length buffer.old → IsAtEnd (R.remaining source.new)) }
    ensures lost { IfErr result (λ _. (bytes : List ℕ) × (length bytes ≤ length buffer.old) × Consumes (R.remaining source.old) (R.remaining source.new) bytes) }
{
    let mut size = 0;
    // Reads are counted, so that the loop is seen to end.
    for _ in 0..u64::MAX {
        match source.read(&mut buffer[size..]) {
            Ok(0) => return Ok(size),
            Ok(more) => size += more,
            Err(error) if error.kind() == io::ErrorKind::Interrupted => {}
            Err(error) => return Err(error),
        }
    }
    Err(io::Error::from(io::ErrorKind::Interrupted))
}
