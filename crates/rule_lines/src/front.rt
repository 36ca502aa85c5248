// The beginning of a run of bytes.
ghost use Rattle.std.specs.Prelude.{◌≡◌, ◌≤◌, [], ◌∷◌, ◌++◌, take};

// The first `N` bytes of what it is given, one by one.
// An array and a size, since an input can be copied, and an array vector cannot.
#[derive(Clone, Copy)]
pub(crate) struct Front<const N: usize> {
    bytes: [u8; N],
    size: usize,
    ghost fits: { size ≤ N },
}

impl<const N: usize> Front<N> {
    pub(crate) fn new() -> Front<N>
        ensures { take result.size result.bytes ≡ [] }
    {
        Front {
            bytes: [0; N],
            size: 0,
        }
    }

    pub(crate) fn push(&mut self, byte: u8)
        ensures { take self.new.size self.new.bytes ≡ take N (take self.old.size self.old.bytes ++ byte ∷ []) }
    {
        if self.size < N {
            self.bytes[self.size] = byte;
            self.size += 1;
        }
    }

    pub(crate) fn bytes(&self) -> &[u8]
        ensures { result.now ≡ take self.now.size self.now.bytes }
    {
        &self.bytes[..self.size]
    }
}
