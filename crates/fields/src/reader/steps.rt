// The reader's steps.
ghost use Rattle.std.specs.Prelude.{◌≡◌, ◌≤◌, length, IfOk};
ghost use Rattle.fields.specs.Field.{front};
ghost use Rattle.fields.specs.Found.{Found, FieldAt};
ghost use Rattle.fields.specs.Law.{WrittenIsRead, ReadIsWritten};
ghost use Rattle.fields.specs.Reader.{source, place as place_of, left, answer, placed, at_front, past, of_read, rest_of, Reads, Next};
ghost use Rattle.fields.specs.Row.{number as number_shape, step};

use crate::digits::numeral;
use crate::field::{Field, Placed, WrongField};
use crate::reader::Reader;

/// The byte that ends a field.
const SOH: u8 = 1;

impl<'a> Reader<'a> {
    /// A reader that stands at the first byte.
    pub fn new(bytes: &'a [u8]) -> Reader<'a>
        ensures source { source result ≡ bytes.now }
        ensures start { place_of result ≡ 0 }
    {
        Reader { bytes, at: 0 }
    }

    /// Where the reader stands; the bytes that it was given begin at 0.
    pub fn place(&self) -> usize
        ensures value { result ≡ place_of self.now }
        ensures inside { result ≤ length (source self.now) }
    {
        self.at
    }

    /// The field at the reader's place, of any kind. The reader then stands after it, or, where it is wrong, where it stood.
    pub fn next(&mut self) -> Result<Placed<'a>, WrongField>
        ensures answer { answer placed result ≡ at_front (place_of self.old) (front (left self.old)) }
        ensures source { source self.new ≡ source self.old }
        ensures left { left self.new ≡ past (left self.old) (front (left self.old)) }
        ensures ahead { place_of self.old ≤ place_of self.new }
        ensures next { Next self.old self.new result }
    {
        let place = self.at;
        let (field, end) = field_at(self.bytes, place).ok_or(WrongField { place })?;
        self.at = end;
        Ok(Placed { field, place })
    }

    /// The number from `low` to `high` in the field at the reader's place, which has this tag. The reader then stands after the field, or, where it is wrong, where it stood.
    pub fn number(&mut self, tag: u32, low: u32, high: u32) -> Result<u32, WrongField>
        ensures answer { answer (λ n. n) result ≡ of_read (place_of self.old) (step (number_shape tag low high) (left self.old)) }
        ensures source { source self.new ≡ source self.old }
        ensures left { left self.new ≡ rest_of (step (number_shape tag low high) (left self.old)) }
        ensures ahead { place_of self.old ≤ place_of self.new }
        ensures range { IfOk result (λ n. (low ≤ n) × (n ≤ high)) }
        ensures reads { Reads (step (number_shape tag low high)) (λ n. n) self.old self.new result }
    {
        let place = self.at;
        let (field, end) = field_at(self.bytes, place).ok_or(WrongField { place })?;
        if field.tag() != tag {
            return Err(WrongField { place });
        }
        let n = numeral(field.value(), low, high).ok_or(WrongField { place })?;
        self.at = end;
        Ok(n)
    }
}

/// The field that starts at this place, and where it ends.
fn field_at<'a>(bytes: &'a [u8], at: usize) -> Option<(Field<'a>, usize)>
    requires inside { at ≤ length bytes.now }
    ensures { FieldAt bytes.now at result }
{
    let rest = &bytes[at..];
    let end = find(rest, SOH)?;
    let text = &rest[..end];
    let equals = find(text, b'=')?;
    let tag = numeral(&text[..equals], 1, 99)?;
    let field = Field::new(tag, &text[equals + 1..])?;
    Some((field, at + end + 1))
}

/// The place of the first `x`.
fn find(bytes: &[u8], x: u8) -> Option<usize>
    ensures { Found x bytes.now result }
{
    bytes.iter().position(|b| *b == x)
}

/// Every number's field has one spelling, whatever its tag and its range.
pub fn every_spelling_is_read_back()
    ensures back { WrittenIsRead }
    ensures only { ReadIsWritten }
{}
