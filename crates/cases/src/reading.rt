// Reading a case field by field.
ghost use Rattle.cases.specs.Readers.{NextField};
ghost use Rattle.cases.specs.Steps.{StandsFirst};

use crate::fault::{CaseFault, CaseRefusal};
use crate::field::Field;
use crate::reader::{CASE_BYTES, CaseReader};

impl<'a> CaseReader<'a> {
    /// A reader before the first field of the case. A case of over 16,384 bytes has none: it is refused as a whole, with 22.
    pub fn new(bytes: &'a [u8]) -> Result<CaseReader<'a>, CaseRefusal>
        ensures { StandsFirst bytes.entry result }
    {
        if bytes.len() > CASE_BYTES {
            return Err(CaseFault::TooLong.at(0));
        }
        Ok(CaseReader {
            bytes,
            at: 0,
            number: 0,
        })
    }

    // The next field, if there is one; one that is cut short is refused. Either of these leaves the reader where it stands.
    pub fn next(&mut self) -> Result<Option<Field<'a>>, CaseRefusal>
        ensures { NextField self.old result self.new }
    {
        let bytes = self.bytes;
        let here = &bytes[self.at..];
        if here.is_empty() {
            return Ok(None);
        }
        let number = self.number + 1;
        let cut_short = CaseFault::BadField.at(number);
        let [tag, hi, lo, rest @ ..] = here else {
            return Err(cut_short);
        };
        let size = usize::from(u16::from_be_bytes([*hi, *lo]));
        let (body, _behind) = rest.split_at_checked(size).ok_or(cut_short)?;
        self.at += 3 + size;
        self.number = number;
        Ok(Some(Field {
            number,
            tag: *tag,
            bytes: body,
        }))
    }
}
