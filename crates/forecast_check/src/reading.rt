// Reading a case from a source.
ghost use Rattle.std.specs.Prelude.{◌≡◌, ◌≤◌, take, IfOk, IfSome};

use cases::reader::CASE_BYTES;
use std::io;
use std::io::Read;
use streams::source::fill;

// One byte more than a case may have, so that a longer one is seen to be too long.
pub(crate) const INPUT_BYTES: usize = CASE_BYTES + 1;

// The first 16,385 bytes of the input, or all of it where it is shorter; answers how many they are.
pub(crate) fn read_case<R: Read>(source: &mut R, case: &mut [u8; INPUT_BYTES]) -> io::Result<usize>
    ensures fits { IfOk result (λ n. n ≤ 16385) }
    ensures bytes { IfOk result (λ n. IfSome (R.remaining source.old) (λ xs. take n case.new ≡ take 16385 xs)) }
{
    fill(source, case)
}
