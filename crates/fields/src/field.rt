// The kinds of fields. FIX names a field by its tag, a number; the variants have FIX's own names.
ghost use Rattle.std.specs.Prelude.{◌≡◌, true, false, MatchOption};
ghost use Rattle.fields.specs.Kind.{known, tag_of, value_of};

/// A field by its kind, with its value, a part of the bytes that it was read from.
#[derive(Clone, Copy, PartialEq, Eq, Debug)]
pub enum Field<'a> {
    BeginString(&'a [u8]),
    BodyLength(&'a [u8]),
    CheckSum(&'a [u8]),
    ClOrdId(&'a [u8]),
    MsgSeqNum(&'a [u8]),
    MsgType(&'a [u8]),
    OrderQty(&'a [u8]),
    OrigClOrdId(&'a [u8]),
    Price(&'a [u8]),
    SenderCompId(&'a [u8]),
    Side(&'a [u8]),
}

/// A field, and the place of its first byte.
#[derive(Clone, Copy, PartialEq, Eq, Debug)]
pub struct Placed<'a> {
    pub field: Field<'a>,
    pub place: usize,
}

/// The field that starts at this place, or should start there, is wrong or missing.
#[derive(Clone, Copy, PartialEq, Eq, Debug)]
pub struct WrongField {
    pub place: usize,
}

impl<'a> Field<'a> {
    /// The field of this tag, if there is one.
    pub(crate) fn new(tag: u32, value: &'a [u8]) -> Option<Field<'a>>
        ensures { MatchOption result (known tag ≡ false) (λ f. (known tag ≡ true) × (tag_of f ≡ tag) × (value_of f ≡ value.now)) }
    {
        match tag {
            8 => Some(Field::BeginString(value)),
            9 => Some(Field::BodyLength(value)),
            10 => Some(Field::CheckSum(value)),
            11 => Some(Field::ClOrdId(value)),
            34 => Some(Field::MsgSeqNum(value)),
            35 => Some(Field::MsgType(value)),
            38 => Some(Field::OrderQty(value)),
            41 => Some(Field::OrigClOrdId(value)),
            44 => Some(Field::Price(value)),
            49 => Some(Field::SenderCompId(value)),
            54 => Some(Field::Side(value)),
            _ => None,
        }
    }

    /// The tag by which FIX names the field.
    pub fn tag(&self) -> u32
        ensures value { result ≡ tag_of self.now }
    {
        match self {
            Field::BeginString(_) => 8,
            Field::BodyLength(_) => 9,
            Field::CheckSum(_) => 10,
            Field::ClOrdId(_) => 11,
            Field::MsgSeqNum(_) => 34,
            Field::MsgType(_) => 35,
            Field::OrderQty(_) => 38,
            Field::OrigClOrdId(_) => 41,
            Field::Price(_) => 44,
            Field::SenderCompId(_) => 49,
            Field::Side(_) => 54,
        }
    }

    /// The bytes between "=" and the byte 1.
    pub fn value(&self) -> &'a [u8]
        ensures value { result.now ≡ value_of self.now }
    {
        match *self {
            Field::BeginString(value)
            | Field::BodyLength(value)
            | Field::CheckSum(value)
            | Field::ClOrdId(value)
            | Field::MsgSeqNum(value)
            | Field::MsgType(value)
            | Field::OrderQty(value)
            | Field::OrigClOrdId(value)
            | Field::Price(value)
            | Field::SenderCompId(value)
            | Field::Side(value) => value,
        }
    }
}
