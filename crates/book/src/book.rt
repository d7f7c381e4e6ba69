// A book. None can exist whose levels, queues and places disagree.
ghost use Rattle.std.specs.Prelude.{◌≡◌, ℕ, ◌+◌, true, length};
ghost use Rattle.fix.specs.declared.command.Side.TheVariants.{Buy, Sell};
ghost use Rattle.ordered.specs.Kept.{Sound};
ghost use Rattle.ordered.specs.Order.{by_order_id};
ghost use Rattle.ordered.specs.declared.key.order_id.OrderId.{OrderId};
ghost use Rattle.market.specs.Market.{resting};
ghost use Rattle.side.specs.Levels.{side_of, levels_of};
ghost use Rattle.market.specs.Tally.{same_side};
ghost use Rattle.book.specs.Place.{held, place_of, told};

use crate::place::Place;
use level::Scratch;
use ordered::{OrderId, OrderedMap};
use side::BookSide;

/// Both sides, and the place of each order that rests.
#[derive(Drop)]
pub struct Book {
    pub(crate) buys: BookSide,
    pub(crate) sells: BookSide,
    pub(crate) places: OrderedMap<OrderId, Place>,
    pub(crate) scratch: Scratch,
    ghost buys_side: { same_side (side_of buys) Buy ≡ true },
    ghost sells_side: { same_side (side_of sells) Sell ≡ true },
    // each order that rests has one place, and each place its order
    ghost bought: { (k : OrderId) (price : ℕ) → held k price (levels_of buys) ≡ told (place_of places.nodes k) Buy price },
    ghost sold: { (k : OrderId) (price : ℕ) → held k price (levels_of sells) ≡ told (place_of places.nodes k) Sell price },
    ghost counted: { resting (levels_of buys) + resting (levels_of sells) ≡ length places.nodes },
    ghost sound: { Sound by_order_id places },
    ghost room: { places.capacity ≡ 1024 },
}
