// The fields of a case.
ghost use Rattle.std.specs.Prelude.{◌≡◌, ◌+◌, ◌≤◌, length, Decides};
ghost use Rattle.cases.specs.Numbers.{four_byte_number, signed_at};
ghost use Rattle.cases.specs.Contents.{ContentRead, Covers};

use crate::fault::CaseFault;
use crate::tag;

// How long a name may be, and how long an entry and a tick are.
pub const NAME_BYTES: usize = 8;

pub const ENTRY_BYTES: usize = 17;

pub const TICK_BYTES: usize = 4;

// A field as it stands in the case; fields count from 1.
#[derive(Clone, Copy)]
pub struct Field<'a> {
    pub number: usize,
    pub tag: u8,
    pub bytes: &'a [u8],
}

// What a line reads from one tick to the tick before another.
#[derive(Clone, Copy, PartialEq, Eq)]
pub struct Entry {
    pub line: u8,
    pub from: u32,
    pub to: u32,
    pub lower: i32,
    pub upper: i32,
}

impl Entry {
    /// Whether the entry is of the line, and the tick in its stretch.
    pub fn covers(self, line: usize, t: usize) -> bool
        ensures { Decides result (Covers self line t) }
    {
        self.line as usize == line && self.from as usize <= t && t < self.to as usize
    }
}

// What a field says.
#[derive(Clone, Copy)]
pub enum Content<'a> {
    Name(&'a [u8]),
    Rule(&'a [u8]),
    Entry(Entry),
    Tick(u32),
}

// The four bytes from `at` on, the high byte first. They are read one by one, since `<[u8; 4]>::try_from` has a refusal that cannot come here.
fn unsigned(bytes: &[u8], at: usize) -> u32
    requires { at + 4 ≤ length bytes.now }
    ensures { result ≡ four_byte_number at bytes.now }
{
    u32::from_be_bytes([bytes[at], bytes[at + 1], bytes[at + 2], bytes[at + 3]])
}

// The same in two's complement.
fn signed(bytes: &[u8], at: usize) -> i32
    requires { at + 4 ≤ length bytes.now }
    ensures { result ≡ signed_at at bytes.now }
{
    unsigned(bytes, at).cast_signed()
}

impl<'a> Field<'a> {
    // What the field says, if its tag and its length are those of a field.
    pub fn content(self) -> Result<Content<'a>, CaseFault>
        ensures { ContentRead self.entry.tag self.entry.bytes.now result }
    {
        let bytes = self.bytes;
        match (self.tag, bytes.len()) {
            (tag::NAME, 1..=NAME_BYTES) => Ok(Content::Name(bytes)),
            (tag::RULE, _) => Ok(Content::Rule(bytes)),
            (tag::ENTRY, ENTRY_BYTES) => Ok(Content::Entry(Entry {
                line: bytes[0],
                from: unsigned(bytes, 1),
                to: unsigned(bytes, 5),
                lower: signed(bytes, 9),
                upper: signed(bytes, 13),
            })),
            (tag::TICK, TICK_BYTES) => Ok(Content::Tick(unsigned(bytes, 0))),
            _ => Err(CaseFault::BadField),
        }
    }
}
