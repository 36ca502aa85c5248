// Writing to a sink, so that what an error leaves there is known.
ghost use Rattle.std.specs.Prelude.{◌≡◌, ◌+◌, [], ◌++◌, OnOk, OnErr};
ghost use Rattle.streams.specs.Fronts.{WritesFront};
ghost use Rattle.streams.specs.Buffers.{buffered};

use crate::buffer::{BUFFER_BYTES, LineBuffer};
use std::io::Write;
use std::{fmt, io};

impl LineBuffer {
    /// Nothing waits.
    pub fn new() -> LineBuffer
        ensures { buffered result ≡ [] }
    {
        LineBuffer {
            bytes: [0; BUFFER_BYTES],
            size: 0,
        }
    }

    /// How many more bytes may wait.
    pub fn room(&self) -> usize
        ensures { result + self.now.size ≡ 4096 }
    {
        BUFFER_BYTES - self.size
    }

    fn as_slice(&self) -> &[u8]
        ensures { result.now ≡ buffered self.now }
    {
        &self.bytes[..self.size]
    }
}

/// What is written waits behind what waits; where there is no room for it all, none of it does.
impl fmt::Write for LineBuffer {
    ghost write_str_gives = { λ s bs t. buffered t ≡ buffered s ++ bs };

    fn write_str(&mut self, s: &str) -> fmt::Result {
        if self.room() < s.len() {
            return Err(fmt::Error);
        }
        let end = self.size + s.len();
        self.bytes[self.size..end].copy_from_slice(s.as_bytes());
        self.size = end;
        Ok(())
    }
}

/// Writes all the bytes, or, at an error, the first of them. An interrupted write is tried again.
pub fn write_front<W: Write>(sink: &mut W, bytes: &[u8]) -> io::Result<()>
    ensures { WritesFront (W.contents sink.old) (W.contents sink.new) bytes.now result }
{
    let mut done = 0;
    // Writes are counted, so that the loop is seen to end.
    for _ in 0..u64::MAX {
        if done == bytes.len() {
            return Ok(());
        }
        match sink.write(&bytes[done..]) {
            Ok(0) => return Err(io::Error::from(io::ErrorKind::WriteZero)),
            Ok(count) => done += count,
            Err(error) if error.kind() == io::ErrorKind::Interrupted => {}
            Err(error) => return Err(error),
        }
    }
    Err(io::Error::from(io::ErrorKind::Interrupted))
}

/// Sends what waits, so that nothing waits any more. At an error a beginning of it is sent, and all of it still waits.
pub fn send<W: Write>(sink: &mut W, buffer: &mut LineBuffer) -> io::Result<()>
    ensures sends { WritesFront (W.contents sink.old) (W.contents sink.new) (buffered buffer.old) result }
    ensures empty { OnOk result (buffered buffer.new ≡ []) }
    ensures kept { OnErr result (buffer.new ≡ buffer.old) }
{
    write_front(sink, buffer.as_slice())?;
    buffer.size = 0;
    Ok(())
}
