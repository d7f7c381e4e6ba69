ghost use Rattle.std.specs.Prelude.{◌≡◌, ◌+◌, ◌*◌, ◌^◌, ◌<◌};
ghost use Rattle.ordered.specs.Order.{by_order_id};
ghost use Rattle.std.proofs.Common.{rules};
ghost use Rattle.std.specs.Cmp.{partial_order_from_own_ties};
ghost use Rattle.std.specs.Cmp.Rules.{comparing};
ghost use Rattle.std.specs.Ordering.{as_partial_cmp};

use crate::key::Key;
use std::cmp::Ordering;

// The name of an order: the member that sent it, and the member's number for it.
#[derive(Clone, Copy, PartialEq, Eq, Debug)]
pub struct OrderId {
    // the order stands below the member in memory, so that the two are read as one number
    pub order: u32,
    pub member: u32,
}

impl OrderId {
    // One number that orders as the pair does, so that a comparison is one step.
    fn as_number(&self) -> u64
        ensures value { result ≡ self.now.member * 2 ^ 32 + self.now.order }
        ensures order_fits { self.now.order < 2 ^ 32 }
    {
        (self.member as u64) * (1 << 32) + self.order as u64
    }
}

// By member, and among the orders of one member by order number. Not derived, since the fields stand the other way round.
impl Ord for OrderId {
    ghost cmp = { by_order_id };

    ghost total = { Prim.search (comparing, rules) };

    ghost matches_partial_cmp = { Prim.search (comparing, rules) };

    ghost matches_eq = { Prim.search (comparing, rules) };

    fn cmp(&self, other: &OrderId) -> Ordering {
        self.as_number().cmp(&other.as_number())
    }
}

impl PartialOrd for OrderId {
    ghost partial_cmp = { as_partial_cmp by_order_id };

    ghost laws = { partial_order_from_own_ties (Prim.search (comparing, rules)) (Prim.search (comparing, rules)) };

    fn partial_cmp(&self, other: &OrderId) -> Option<Ordering> {
        Some(self.cmp(other))
    }
}

impl Key for OrderId {
    ghost same = { Prim.search (comparing, rules) };
}
