// Why a message is refused, or a command not made or not written.
ghost use Rattle.std.specs.Prelude.{◌≡◌};
ghost use Rattle.fix.specs.Refusal.{number_of, place_of};
ghost use Rattle.fix.specs.declared.refusal.MessageRefusal.TheVariants as refusals;

use fields::WrongField;

/// Tested in this order: fields, count, sum.
#[derive(Clone, Copy, PartialEq, Eq, Debug)]
pub enum MessageRefusal {
    /// the field that starts at this place, or should start there, is wrong or missing; or bytes follow the last field there
    WrongField { place: usize },
    /// BodyLength is not the count of bytes
    WrongCount,
    /// CheckSum is not the sum of bytes
    WrongSum,
}

impl MessageRefusal {
    /// The number by which people know it.
    pub fn number(self) -> u32
        ensures value { result ≡ number_of self }
    {
        // by cases, since one holds a place
        match self {
            MessageRefusal::WrongField { .. } => 11,
            MessageRefusal::WrongCount => 12,
            MessageRefusal::WrongSum => 13,
        }
    }

    /// Where it is found in the message: at the wrong field, or at the start where the whole is wrong.
    pub fn place(self) -> usize
        ensures value { result ≡ place_of self }
    {
        match self {
            MessageRefusal::WrongField { place } => place,
            MessageRefusal::WrongCount | MessageRefusal::WrongSum => 0,
        }
    }
}

impl From<WrongField> for MessageRefusal {
    ghost from_gives = { λ w r. r ≡ refusals.WrongField w.place };

    fn from(wrong: WrongField) -> MessageRefusal {
        MessageRefusal::WrongField { place: wrong.place }
    }
}

/// The message of this command needs a buffer of this many bytes.
#[derive(Clone, Copy, PartialEq, Eq, Debug)]
pub struct BufferTooShort {
    pub needed: usize,
}

/// The first figure of a command that is out of its range.
#[derive(Clone, Copy, PartialEq, Eq, Debug)]
pub enum OutOfRange {
    Member,
    Number,
    Order,
    Lots,
    Price,
}
