ghost use Rattle.ordered.specs.Law.{LooksUp, KeepsOrder, Counts, Writes, Insertions, Ends};
ghost use Rattle.ordered.specs.Kept.{Sound};
ghost use Rattle.ordered.specs.Order.{Total, by_price, by_order_id};

use crate::key::Key;
use crate::key::order_id::OrderId;
use crate::key::price::Price;
use crate::ordered_map::OrderedMap;

// What users of a map may rely on, whatever its keys and values are.
pub fn laws_hold<K: Key, V>()
    ensures total_order { Total K.cmp }
    ensures looks_up { LooksUp V K.cmp }
    ensures keeps_order { KeepsOrder V K.cmp }
    ensures counts { Counts V K.cmp }
    ensures writes { Writes V K.cmp }
    ensures insertions { Insertions V K.cmp }
    ensures ends { Ends V K.cmp }
{}

// The prices of a map ascend by their numbers.
pub fn prices_ascend<V>(map: &OrderedMap<Price, V>)
    ensures { Sound by_price map.now }
{
    let _ = map.len();
}

// The names of orders ascend by member, and those of one member by order number.
pub fn order_ids_ascend<V>(map: &OrderedMap<OrderId, V>)
    ensures { Sound by_order_id map.now }
{
    let _ = map.len();
}
