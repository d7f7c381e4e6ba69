use crate::entry::{Entry, Event, Reason};
use crate::figures::Figures;
use fix::Side;

// An event, and the side, kind, lots, price, leaves and reason of its entry.
#[test]
fn entries_have_nine_values(rt: HostRuntime) {
    for (event, side, kind, lots, price, leaves, reason) in [
        (
            Event::Accepted {
                side: Side::Buy,
                lots: 7,
            },
            1,
            b'0',
            7,
            0,
            7,
            0,
        ),
        (
            Event::Filled {
                side: Side::Sell,
                lots: 5,
                price: 100,
                leaves: 2,
            },
            2,
            b'F',
            5,
            100,
            2,
            0,
        ),
        (
            Event::Cancelled {
                side: Side::Sell,
                lots: 2,
            },
            2,
            b'4',
            2,
            0,
            0,
            0,
        ),
        (
            Event::OrderTurnedDown {
                side: Side::Buy,
                reason: Reason::BookFull,
            },
            1,
            b'8',
            0,
            0,
            0,
            3,
        ),
        (
            Event::OrderTurnedDown {
                side: Side::Sell,
                reason: Reason::DuplicateOrder,
            },
            2,
            b'8',
            0,
            0,
            0,
            6,
        ),
        (
            Event::CancelTurnedDown {
                reason: Reason::UnknownOrder,
            },
            0,
            b'8',
            0,
            0,
            0,
            5,
        ),
    ] {
        let entry = Entry {
            command: 3,
            member: 1,
            order: 10,
            event,
        };
        let figures = Figures {
            command: 3,
            member: 1,
            order: 10,
            side,
            kind,
            lots,
            price,
            leaves,
            reason,
        };
        assert_eq!(rt; entry.figures(), figures);
    }
}
