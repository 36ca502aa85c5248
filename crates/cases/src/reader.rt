// A reader of the fields of a case.
ghost use Rattle.std.specs.Prelude.{◌+◌, ◌≤◌, length};

/// The most bytes of a case.
pub const CASE_BYTES: usize = 16_384;

/// A case of at most 16,384 bytes, the place where its next field begins, and how many fields were read.
#[derive(Drop)]
pub struct CaseReader<'a> {
    pub(crate) bytes: &'a [u8],
    pub(crate) at: usize,
    pub(crate) number: usize,
    ghost sized: { length bytes.now ≤ 16384 },
    ghost within: { at ≤ length bytes.now },
    ghost counted: { number + number + number ≤ at },
}
