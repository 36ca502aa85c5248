// Putting fields behind one another.
ghost use Rattle.std.specs.Prelude.{◌≡◌, ◌+◌, ◌≤◌, ◌++◌, length};
ghost use Rattle.cases.specs.Contents.{entry, tick, Says, item_of};
ghost use Rattle.cases.specs.Laws.{packed};
ghost use Rattle.case_text.specs.Parts.{FitsField, AddsField};

use arrayvec::ArrayVec;
use cases::field::{Content, ENTRY_BYTES, Entry, TICK_BYTES};
use cases::reader::CASE_BYTES;
use cases::tag;

// The tag, the length in two bytes, and the body.
fn put_field(case: &mut ArrayVec<u8, CASE_BYTES>, tag: u8, body: &[u8])
    requires { length case.old.items + length body.now + 3 ≤ 16384 }
    ensures { case.new.items ≡ case.old.items ++ packed tag body.now }
{
    let [high, low] = (body.len() as u16).to_be_bytes();
    case.push(tag);
    case.push(high);
    case.push(low);
    let _ = case.try_extend_from_slice(body);
}

fn tick_bytes(t: u32) -> [u8; TICK_BYTES]
    ensures { Says 0x54 result (tick t) }
{
    t.to_be_bytes()
}

// The line, and the four numbers in four bytes each. Arrays cannot be joined, so the bytes are named one by one.
fn entry_bytes(e: Entry) -> [u8; ENTRY_BYTES]
    ensures { Says 0x45 result (entry e) }
{
    let from = e.from.to_be_bytes();
    let to = e.to.to_be_bytes();
    let lower = e.lower.to_be_bytes();
    let upper = e.upper.to_be_bytes();
    [
        e.line, from[0], from[1], from[2], from[3], to[0], to[1], to[2], to[3], lower[0], lower[1],
        lower[2], lower[3], upper[0], upper[1], upper[2], upper[3],
    ]
}

// Puts one more field behind the others.
pub(crate) fn put(case: &mut ArrayVec<u8, CASE_BYTES>, content: Content<'_>)
    requires { FitsField (length case.old.items) (item_of content) }
    ensures { AddsField case.old.items (item_of content.entry) case.new.items }
{
    match content {
        Content::Name(word) => put_field(case, tag::NAME, word),
        Content::Rule(text) => put_field(case, tag::RULE, text),
        Content::Entry(entry) => put_field(case, tag::ENTRY, &entry_bytes(entry)),
        Content::Tick(tick) => put_field(case, tag::TICK, &tick_bytes(tick)),
    }
}
