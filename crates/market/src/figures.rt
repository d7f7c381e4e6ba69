// Entries by their nine values, as tables and reports have them.
ghost use Rattle.std.specs.Prelude.{◌≡◌};
ghost use Rattle.market.specs.Entry.{figures, reason_number};

use crate::entry::{Entry, Event, Reason};

/// The nine values of an entry, as tables and reports print them: with enums each value would be turned into a number there. `Event` is the enum of the kinds. What a kind does not name is 0.
#[derive(Clone, Copy, PartialEq, Eq, Debug)]
pub struct Figures {
    pub command: u32,
    pub member: u32,
    pub order: u32,
    pub side: u32,
    /// FIX's ExecType, a character.
    pub kind: u8,
    pub lots: u32,
    pub price: u32,
    pub leaves: u32,
    pub reason: u32,
}

impl Reason {
    /// The number by which FIX knows the reason.
    pub fn number(self) -> u32
        ensures value { result ≡ reason_number self }
    {
        self as u32
    }
}

impl Entry {
    /// The values of an entry that names its side and kind alone.
    fn bare(&self, side: u32, kind: u8) -> Figures
        ensures value { result ≡ record { command = self.now.command; member = self.now.member; order = self.now.order; side = side; kind = kind; lots = 0; price = 0; leaves = 0; reason = 0 } }
    {
        Figures {
            command: self.command,
            member: self.member,
            order: self.order,
            side,
            kind,
            lots: 0,
            price: 0,
            leaves: 0,
            reason: 0,
        }
    }

    /// The entry's nine values.
    pub fn figures(&self) -> Figures
        ensures value { result ≡ figures self.now }
    {
        match self.event {
            Event::Accepted { side, lots } => {
                let leaves = lots;
                let bare = self.bare(side.number(), b'0');
                Figures {
                    lots,
                    leaves,
                    ..bare
                }
            }
            Event::Filled {
                side,
                lots,
                price,
                leaves,
            } => {
                let bare = self.bare(side.number(), b'F');
                Figures {
                    lots,
                    price,
                    leaves,
                    ..bare
                }
            }
            Event::Cancelled { side, lots } => {
                let bare = self.bare(side.number(), b'4');
                Figures { lots, ..bare }
            }
            Event::OrderTurnedDown { side, reason } => {
                let reason = reason.number();
                let bare = self.bare(side.number(), b'8');
                Figures { reason, ..bare }
            }
            Event::CancelTurnedDown { reason } => {
                let reason = reason.number();
                let bare = self.bare(0, b'8');
                Figures { reason, ..bare }
            }
        }
    }
}
