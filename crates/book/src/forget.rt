// Places of orders that were filled whole.
ghost use Rattle.std.specs.Prelude.{◌≡◌, ◌≤◌, length};
ghost use Rattle.ordered.specs.Kept.{Sound};
ghost use Rattle.ordered.specs.Order.{by_order_id};
ghost use Rattle.book.specs.Place.{is_gone, forgotten};

use crate::place::Place;
use fix::Side;
use market::{Entry, Event, is_same};
use ordered::{OrderId, OrderedMap};

/// Whether an order of this side was filled whole.
fn filled_whole(side: Side, event: Event) -> bool
    ensures value { result ≡ is_gone side event }
{
    match event {
        Event::Filled {
            side: of,
            lots: _,
            price: _,
            leaves,
        } => is_same(of, side) && leaves == 0,
        _ => false,
    }
}

/// Takes out the places of the orders of this side that the entries tell to be gone.
pub(crate) fn forget(places: &mut OrderedMap<OrderId, Place>, side: Side, entries: &[Entry])
    requires sound { Sound by_order_id places.old }
    ensures places { places.new.nodes ≡ forgotten side entries.now places.old.nodes }
    ensures room { places.new.capacity ≡ places.old.capacity }
    ensures sound { Sound by_order_id places.new }
{
    for entry in entries {
        if filled_whole(side, entry.event) {
            let _ = places.remove(&OrderId {
                order: entry.order,
                member: entry.member,
            });
        }
    }
}
