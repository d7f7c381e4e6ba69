// The levels of one side by the ranks of their prices. None can exist that are out of order or empty, or whose count of orders is not theirs.
ghost use Rattle.std.specs.Prelude.{◌≡◌, ◌+◌, ◌<◌, ◌≤◌, true, ◌&&◌, [], ◌∷◌, ◌++◌, length, IfOk, is_some, vec_len, vec_capacity, nat_lt};
ghost use Rattle.allocation.specs.Range.{tradable};
ghost use Rattle.fix.specs.declared.command.Side.TheVariants.{Sell};
ghost use Rattle.level.specs.Queue.{queue_of};
ghost use Rattle.market.specs.Market.{resting, in_queue};
ghost use Rattle.market.specs.Put.{joins};
ghost use Rattle.market.specs.Prices.{queue_at};
ghost use Rattle.side.specs.Queues.{out_at};
ghost use Rattle.side.specs.Meeting.{first_within};
ghost use Rattle.side.specs.Rank.{in_range};
ghost use Rattle.side.specs.Row.{seen};
ghost use Rattle.side.specs.Shape.{Shaped};

// levels that an incoming order meets
mod meet;

use level::{Level, MOST_ORDERS};
use market::Resting;
use ordered::{Node, OrderedMap, Price};
use std::alloc::{AllocError, Global};
use std::marker::Model;

/// Levels by rank, the best first, and spare ones, whose memory is for prices to come. Together there are as many as orders can rest.
#[derive(Drop)]
pub(crate) struct Levels {
    held: OrderedMap<Price, Level>,
    spare: Vec<Level>,
    /// how many orders rest
    orders: usize,
}

impl Model for Levels {
    ghost use Rattle.std.specs.Prelude.{List, vec_len, vec_capacity};
    ghost use Rattle.market.specs.Market.{Level as PriceLevel};
    ghost use Rattle.side.specs.Row.{seen, InStep};

    ghost Value = { List PriceLevel };

    ghost view = { λ s. seen s.held.nodes };

    ghost invariant = { λ s. InStep s.held (vec_len s.spare) (vec_capacity s.spare) s.orders };
}

impl Levels {
    /// No levels, and memory for 1,024 of 1,024 orders.
    pub(crate) fn new(heap: Global) -> Result<Levels, AllocError>
        ensures made { IfOk result (λ levels. levels ≡ []) }
    {
        let held = OrderedMap::new(heap, MOST_ORDERS)?;
        let mut spare = Vec::with_capacity(heap, MOST_ORDERS)?;
        for _ in 0..MOST_ORDERS {
            spare.push_reserved(Level::new(heap)?);
        }
        Ok(Levels {
            held,
            spare,
            orders: 0,
        })
    }

    /// How many orders rest.
    pub(crate) fn orders(&self) -> usize
        ensures value { result ≡ resting self.now }
        ensures few { result ≤ 1024 }
        ensures shaped { Shaped Sell self.now }
    {
        self.orders
    }

    /// The levels by rank.
    pub(crate) fn nodes(&self) -> &[Node<Price, Level>]
        ensures value { seen result.now ≡ self.now }
    {
        self.held.nodes()
    }

    /// Whether something is left to trade, and there is a level up to the limit.
    pub(crate) fn crosses(&self, left: u32, limit: u32) -> bool
        ensures value { result ≡ (nat_lt 0 left && first_within limit self.now) }
        ensures shaped { Shaped Sell self.now }
    {
        match self.held.first() {
            None => false,
            Some(best) => left > 0 && best.key.0 <= limit,
        }
    }

    /// The order joins the level at its rank last, or opens it.
    pub(crate) fn join(&mut self, rank: Price, order: Resting)
        requires short { resting self.old < 1024 }
        requires rank { in_range rank.0 ≡ true }
        requires tradable { tradable order.lots ≡ true }
        ensures levels { self.new ≡ joins Sell rank.0 order self.old }
        ensures shaped { Shaped Sell self.old }
        ensures still { Shaped Sell self.new }
    {
        self.orders += 1;
        match self.held.get_mut(&rank) {
            Some(level) => add(level, order),
            None => {
                let node = Node {
                    key: rank,
                    value: open(&mut self.spare, order),
                };
                match self.held.insert(node) {
                    Ok(()) => {}
                    Err(_) => unreachable(),
                }
            }
        }
    }

    /// Takes out the order of that member and number where it rests at the rank, and its level with it where that leaves nothing.
    pub(crate) fn take_out(&mut self, rank: Price, member: u32, order: u32) -> Option<Resting>
        ensures value { result ≡ in_queue member order (queue_at rank.0 self.old) }
        ensures levels { self.new ≡ out_at rank.0 member order self.old }
        ensures shaped { Shaped Sell self.old }
        ensures still { Shaped Sell self.new }
    {
        let level = self.held.get_mut(&rank)?;
        let taken = level.take_out(member, order)?;
        self.orders -= 1;
        if level.len() == 0 {
            close(&mut self.spare, self.held.remove(&rank));
        }
        Some(taken)
    }

    /// Takes every level out.
    pub(crate) fn clear(&mut self)
        ensures levels { self.new ≡ [] }
    {
        while let Some(node) = self.held.pop_last() {
            self.spare.push_reserved(node.value);
        }
        self.orders = 0;
    }
}

/// The order joins the level last.
fn add(level: &mut Level, order: Resting)
    requires short { length (queue_of level.old) < 1024 }
    requires tradable { tradable order.lots ≡ true }
    ensures queue { queue_of level.new ≡ queue_of level.old ++ order ∷ [] }
{
    match level.add(order) {
        Ok(()) => {}
        Err(_) => unreachable(),
    }
}

/// A level of one order, from the spare ones.
fn open(spare: &mut Vec<Level>, order: Resting) -> Level
    requires some { 0 < vec_len spare.old }
    requires tradable { tradable order.lots ≡ true }
    ensures queue { queue_of result ≡ order ∷ [] }
    ensures count { vec_len spare.new + 1 ≡ vec_len spare.old }
    ensures memory { vec_capacity spare.new ≡ vec_capacity spare.old }
{
    let mut level = spare.pop().unwrap();
    level.clear();
    add(&mut level, order);
    level
}

/// The level that was taken out goes to the spare ones.
fn close(spare: &mut Vec<Level>, node: Option<Node<Price, Level>>)
    requires some { is_some node ≡ true }
    requires room { vec_len spare.old < vec_capacity spare.old }
    ensures count { vec_len spare.new ≡ vec_len spare.old + 1 }
    ensures memory { vec_capacity spare.new ≡ vec_capacity spare.old }
{
    match node {
        Some(node) => spare.push_reserved(node.value),
        None => unreachable(),
    }
}
