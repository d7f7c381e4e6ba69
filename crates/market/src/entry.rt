use fix::Side;

/// Why a command is turned down, with FIX's number of the reason.
#[derive(Clone, Copy, PartialEq, Eq, Debug)]
pub enum Reason {
    /// As many orders rest as a book holds, and the new one would trade with none.
    BookFull = 3,
    /// No order of that member with that number rests.
    UnknownOrder = 5,
    /// An order of that member with that number rests already.
    DuplicateOrder = 6,
}

/// What happened to an order.
#[derive(Clone, Copy, PartialEq, Eq, Debug)]
pub enum Event {
    Accepted {
        side: Side,
        lots: u32,
    },
    /// `leaves` is what is left of the order after this fill.
    Filled {
        side: Side,
        lots: u32,
        price: u32,
        leaves: u32,
    },
    Cancelled {
        side: Side,
        lots: u32,
    },
    OrderTurnedDown {
        side: Side,
        reason: Reason,
    },
    CancelTurnedDown {
        reason: Reason,
    },
}

/// What a command did to one order: the command's number, whose order it is, and what happened to it.
#[derive(Clone, Copy, PartialEq, Eq, Debug)]
pub struct Entry {
    pub command: u32,
    pub member: u32,
    pub order: u32,
    pub event: Event,
}

impl Entry {
    /// What a list of entries holds before any is written.
    pub const BLANK: Entry = Entry {
        command: 0,
        member: 0,
        order: 0,
        event: Event::CancelTurnedDown {
            reason: Reason::UnknownOrder,
        },
    };
}
