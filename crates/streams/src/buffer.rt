// Where lines wait until they are sent to a sink.
ghost use Rattle.std.specs.Prelude.{◌≤◌};

pub(crate) const BUFFER_BYTES: usize = 4096;

/// Up to 4,096 bytes; the first so many wait.
#[derive(Drop)]
pub struct LineBuffer {
    pub(crate) bytes: [u8; BUFFER_BYTES],
    pub(crate) size: usize,
    ghost within: { size ≤ 4096 },
}
