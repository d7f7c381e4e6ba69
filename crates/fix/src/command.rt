// Commands. Their ranges are invariants of the types, so that no command out of range can exist.
ghost use Rattle.fix.specs.Range.{Within, largest_member, largest_number, largest_lots, largest_price};

/// Each figure starts at 1.
pub(crate) const LARGEST_MEMBER: u32 = 9_999;
/// Of a command, and of an order.
pub(crate) const LARGEST_NUMBER: u32 = 999_999_999;

pub(crate) const LARGEST_LOTS: u32 = 999_999;

pub const LARGEST_PRICE: u32 = 999_999;

/// A side of the market, with its number in field 54.
#[derive(Clone, Copy, PartialEq, Eq, Debug)]
pub enum Side {
    Buy = 1,
    Sell = 2,
}

/// A limit order: the member who sends it, the command's number, the member's own number of the order,
/// and what is wanted at which price.
#[derive(Clone, Copy, PartialEq, Eq, Debug)]
pub struct NewOrder {
    pub member: u32,
    pub number: u32,
    pub order: u32,
    pub side: Side,
    pub lots: u32,
    pub price: u32,
    ghost member_within: { Within largest_member member },
    ghost number_within: { Within largest_number number },
    ghost order_within: { Within largest_number order },
    ghost lots_within: { Within largest_lots lots },
    ghost price_within: { Within largest_price price },
}

/// Removes what rests of the member's order of this number. It repeats three fields of an order: a part that both share would stand in every
/// `order.member`, and save two or three lines where they are read and written.
#[derive(Clone, Copy, PartialEq, Eq, Debug)]
pub struct Cancel {
    pub member: u32,
    pub number: u32,
    pub order: u32,
    ghost member_within: { Within largest_member member },
    ghost number_within: { Within largest_number number },
    ghost order_within: { Within largest_number order },
}

#[derive(Clone, Copy, PartialEq, Eq, Debug)]
pub enum Command {
    New(NewOrder),
    Cancel(Cancel),
}
