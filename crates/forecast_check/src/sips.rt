// The worked case in many small reads, each third of them interrupted, and out in as many writes.
use crate::running::run;
use std::io;
use std::io::{Read, Write};

static CASE: &[u8] =
    b"L\x00\x03hotL\x00\x04flowR\x00\x19G[0,3](flow<=0|hot>=1800)E\x00\x11\x00\x00\x00\x00\x00\x00\x00\x00\x0a\x00\x00\x06\xd6\x00\x00\x07lE\x00\x11\x01\x00\x00\x00\x00\x00\x00\x00\x02\x00\x00\x00\x00\x00\x00\x00\x00E\x00\x11\x01\x00\x00\x00\x02\x00\x00\x00\x0a\x00\x00\x00\x00\x00\x00\x00(T\x00\x04\x00\x00\x00\x00E\x00\x11\x00\x00\x00\x00\x02\x00\x00\x00\x04\x00\x00\x07\x08\x00\x00\x07:T\x00\x04\x00\x00\x00\x00E\x00\x11\x00\x00\x00\x00\x02\x00\x00\x00\x04\x00\x00\x06\xa4\x00\x00\x07l";

static LINES: &[u8] = b"0 unsure -40 100 2\n0 2 4\n1 2 4\n0 pass 0 50 0\nrefused 5 field 10\n";

// Hands on two bytes at most at a time, and is interrupted at each third call.
#[derive(Drop)]
struct Sips<T> {
    inner: T,
    calls: u8,
}

impl<T> Sips<T> {
    // How many of so many bytes are handed on.
    fn turn(&mut self, size: usize) -> io::Result<usize> {
        self.calls = self.calls % 3 + 1;
        if self.calls == 3 {
            return Err(io::Error::from(io::ErrorKind::Interrupted));
        }
        Ok(size.min(2))
    }
}

impl<T: Read> Read for Sips<T> {
    fn read(&mut self, buffer: &mut [u8]) -> io::Result<usize> {
        let size = self.turn(buffer.len())?.min(buffer.len());
        self.inner.read(&mut buffer[..size])
    }
}

impl<T: Write> Write for Sips<T> {
    fn write(&mut self, bytes: &[u8]) -> io::Result<usize> {
        let size = self.turn(bytes.len())?.min(bytes.len());
        self.inner.write(&bytes[..size])
    }

    fn flush(&mut self) -> io::Result<()> {
        self.inner.flush()
    }
}

#[test]
fn small_reads_give_the_listing(rt: HostRuntime) {
    let mut source = Sips {
        inner: CASE,
        calls: 0,
    };
    let mut sink = Sips {
        inner: Vec::new(rt.alloc()),
        calls: 0,
    };
    assert!(rt; run(&mut source, &mut sink).is_ok());
    assert!(rt; sink.inner.as_slice() == LINES);
}
