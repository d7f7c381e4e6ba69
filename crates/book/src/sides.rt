// What a command does on one side, with the places of its orders.
ghost use Rattle.std.specs.Prelude.{◌≡◌, ℕ, ◌<◌, ◌≤◌, true, length, Some, None, ◌≢◌};
ghost use Rattle.allocation.specs.Range.{tradable};
ghost use Rattle.fix.specs.Command.{order_figures};
ghost use Rattle.ordered.specs.Kept.{Sound};
ghost use Rattle.ordered.specs.Order.{by_order_id};
ghost use Rattle.market.specs.Market.{resting, in_levels, other as opposite};
ghost use Rattle.market.specs.Put.{joins, out_of_levels};
ghost use Rattle.side.specs.Levels.{side_of, levels_of};
ghost use Rattle.side.specs.Meeting.{Meets};
ghost use Rattle.side.specs.Rank.{in_range};
ghost use Rattle.side.specs.Shape.{Shaped};
ghost use Rattle.book.specs.Place.{held, place_of};
ghost use Rattle.book.specs.Step.{Placed, Together};

use crate::forget::forget;
use crate::place::Place;
use allocation::Policy;
use fix::NewOrder;
use level::{Progress, Scratch};
use market::{Entry, Resting, other};
use ordered::{Node, OrderId, OrderedMap};
use side::BookSide;

/// The incoming order meets the other side, and the places of the orders that it fills whole are taken out. One entry is written before.
pub(crate) fn meet<P: Policy>(
    theirs: &mut BookSide,
    places: &mut OrderedMap<OrderId, Place>,
    scratch: &mut Scratch,
    policy: &P,
    order: &NewOrder,
    list: &mut [Entry],
) -> Progress
    requires side { side_of theirs.old ≡ opposite order.now.side }
    requires placed { Placed (opposite order.now.side) (levels_of theirs.old) places.old.nodes }
    requires sound { Sound by_order_id places.old }
    requires long { 2049 ≤ length list.old }
    ensures meets { Meets (P.Policy.split policy.now) (order_figures order.now) (levels_of theirs.old) (levels_of theirs.new) list.old list.new 1 result }
    ensures shaped { Shaped (opposite order.now.side) (levels_of theirs.old) }
    ensures together { Together (opposite order.now.side) (levels_of theirs.old) (levels_of theirs.new) places.old.nodes places.new.nodes }
    ensures side { side_of theirs.new ≡ side_of theirs.old }
    ensures room { places.new.capacity ≡ places.old.capacity }
    ensures sound { Sound by_order_id places.new }
{
    match theirs.meet(policy, scratch, order, 1, list) {
        Ok(after) => {
            let end = after.written;
            forget(places, other(order.side), &list[1..end]);
            after
        }
        Err(_) => unreachable(),
    }
}

/// An order comes to rest.
pub(crate) fn rest(
    mine: &mut BookSide,
    places: &mut OrderedMap<OrderId, Place>,
    place: Place,
    order: Resting,
)
    requires side { side_of mine.old ≡ place.side }
    requires placed { Placed place.side (levels_of mine.old) places.old.nodes }
    requires new { place_of places.old.nodes (record { order = order.order; member = order.member }) ≡ None }
    requires short { length places.old.nodes < 1024 }
    requires fewer { resting (levels_of mine.old) ≤ length places.old.nodes }
    requires room { places.old.capacity ≡ 1024 }
    requires price { in_range place.price ≡ true }
    requires lots { tradable order.lots ≡ true }
    ensures levels { levels_of mine.new ≡ joins place.side place.price order (levels_of mine.old) }
    ensures together { Together place.side (levels_of mine.old) (levels_of mine.new) places.old.nodes places.new.nodes }
    ensures side { side_of mine.new ≡ side_of mine.old }
    ensures room { places.new.capacity ≡ places.old.capacity }
    ensures sound { Sound by_order_id places.new }
{
    match mine.join(place.price, order) {
        Ok(()) => {}
        Err(_) => unreachable(),
    }
    let key = OrderId {
        order: order.order,
        member: order.member,
    };
    match places.insert(Node { key, value: place }) {
        Ok(()) => {}
        Err(_) => unreachable(),
    }
}

/// Takes out the order that rests at a place, which was its own among the places before it was taken out of them.
pub(crate) fn take_out(mine: &mut BookSide, place: Place, member: u32, order: u32) -> Resting
    requires there { held (record { order = order; member = member }) place.price (levels_of mine.old) ≡ 1 }
    requires nowhere { (price : ℕ) → (price ≢ place.price) → held (record { order = order; member = member }) price (levels_of mine.old) ≡ 0 }
    ensures value { in_levels member order (levels_of mine.old) ≡ Some result }
    ensures levels { levels_of mine.new ≡ out_of_levels member order (levels_of mine.old) }
    ensures side { side_of mine.new ≡ side_of mine.old }
{
    match mine.take_out(place.price, member, order) {
        Some(taken) => taken,
        None => unreachable(),
    }
}
