// The number of a side, and commands made of figures that may be out of range.
ghost use Rattle.std.specs.Prelude.{◌≡◌, cond, Ok, Err};
ghost use Rattle.fix.specs.Message.{side_number};
ghost use Rattle.fix.specs.Refusal.{order_answer, cancel_answer, tested_order, tested_cancel, within as is_within};

use crate::command::{
    Cancel, LARGEST_LOTS, LARGEST_MEMBER, LARGEST_NUMBER, LARGEST_PRICE, NewOrder, Side,
};
use crate::refusal::OutOfRange;

impl Side {
    /// Its number in field 54.
    pub fn number(self) -> u32
        ensures value { result ≡ side_number self }
    {
        self as u32
    }
}

impl NewOrder {
    /// The order of these figures, or the first of them that is out of range.
    pub fn new(
        member: u32,
        number: u32,
        order: u32,
        side: Side,
        lots: u32,
        price: u32,
    ) -> Result<NewOrder, OutOfRange>
        ensures answer { order_answer result ≡ tested_order (record { member = member; number = number; order = order; side = side; lots = lots; price = price }) }
    {
        within(member, LARGEST_MEMBER, OutOfRange::Member)?;
        within(number, LARGEST_NUMBER, OutOfRange::Number)?;
        within(order, LARGEST_NUMBER, OutOfRange::Order)?;
        within(lots, LARGEST_LOTS, OutOfRange::Lots)?;
        within(price, LARGEST_PRICE, OutOfRange::Price)?;
        Ok(NewOrder {
            member,
            number,
            order,
            side,
            lots,
            price,
        })
    }
}

impl Cancel {
    /// The cancel of these figures, or the first of them that is out of range.
    pub fn new(member: u32, number: u32, order: u32) -> Result<Cancel, OutOfRange>
        ensures answer { cancel_answer result ≡ tested_cancel (record { member = member; number = number; order = order }) }
    {
        within(member, LARGEST_MEMBER, OutOfRange::Member)?;
        within(number, LARGEST_NUMBER, OutOfRange::Number)?;
        within(order, LARGEST_NUMBER, OutOfRange::Order)?;
        Ok(Cancel {
            member,
            number,
            order,
        })
    }
}

/// Tests that a figure is from 1 to the largest.
fn within(n: u32, largest: u32, otherwise: OutOfRange) -> Result<(), OutOfRange>
    ensures { result ≡ cond (is_within largest n) (Ok tt) (Err otherwise) }
{
    if n == 0 || n > largest {
        return Err(otherwise);
    }
    Ok(())
}
