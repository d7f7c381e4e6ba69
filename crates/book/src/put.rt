// Commands put through.
ghost use Rattle.std.specs.Prelude.{◌≡◌, ◌<◌, ◌≤◌, false, [], ◌∷◌, ◌++◌, length, take, drop, None};
ghost use Rattle.answers.specs.Answer.{if_answered};
ghost use Rattle.fix.specs.Command.{figures, order_figures, cancel_figures};
ghost use Rattle.market.specs.Market.{known, best_crosses, levels, with_levels, other, capacity, all_resting};
ghost use Rattle.market.specs.Put.{entry as entry_of, order_refusal, meets, rests, trades, put_order, put_cancel, put};
ghost use Rattle.side.specs.Shape.{Shaped};
ghost use Rattle.book.specs.Market.{market_of};
ghost use Rattle.book.specs.Put.{answer, putting, written};

use crate::book::Book;
use crate::place::Place;
use crate::refusal::{ListTooShort, MOST_ENTRIES};
use crate::sides::{meet, rest, take_out};
use allocation::Policy;
use fix::{Cancel, Command, NewOrder, Side};
use level::{MOST_ORDERS, Progress};
use market::{Entry, Event, Reason, Resting};
use ordered::OrderId;

/// What the command for a new order tells of that order.
fn entry_for(order: &NewOrder, event: Event) -> Entry
    ensures value { result ≡ entry_of order.now.number order.now.member order.now.order event }
{
    Entry {
        command: order.number,
        member: order.member,
        order: order.order,
        event,
    }
}

impl Book {
    /// Whether that member's order number rests.
    fn knows(&self, member: u32, order: u32) -> bool
        ensures value { result ≡ known member order (market_of self.now) }
    {
        self.places.get(&OrderId { order, member }).is_some()
    }

    /// Whether the best level of the other side crosses the order.
    fn is_crossed(&self, order: &NewOrder) -> bool
        ensures value { result ≡ best_crosses order.now.side order.now.price (levels (other order.now.side) (market_of self.now)) }
    {
        match order.side {
            Side::Buy => self.best_sell().is_some_and(|price| price <= order.price),
            Side::Sell => self.best_buy().is_some_and(|price| order.price <= price),
        }
    }

    /// Why the order is turned down, if it is.
    fn refusal(&self, order: &NewOrder) -> Option<Reason>
        ensures value { result ≡ order_refusal (order_figures order.now) (market_of self.now) }
    {
        if self.knows(order.member, order.order) {
            return Some(Reason::DuplicateOrder);
        }
        if self.places.len() < MOST_ORDERS || self.is_crossed(order) {
            return None;
        }
        Some(Reason::BookFull)
    }

    /// The order meets the other side.
    fn meet<P: Policy>(&mut self, policy: &P, order: &NewOrder, list: &mut [Entry]) -> Progress
        requires long { 2049 ≤ length list.old }
        ensures market { market_of self.new ≡ with_levels (other order.now.side) (meets (P.Policy.split policy.now) (order_figures order.now) order.now.lots (levels (other order.now.side) (market_of self.old))).levels (market_of self.old) }
        ensures left { result.left ≡ (meets (P.Policy.split policy.now) (order_figures order.now) order.now.lots (levels (other order.now.side) (market_of self.old))).left }
        ensures front { take result.written list.new ≡ take 1 list.old ++ (meets (P.Policy.split policy.now) (order_figures order.now) order.now.lots (levels (other order.now.side) (market_of self.old))).entries }
        ensures back { drop result.written list.new ≡ drop result.written list.old }
        ensures upto { result.written ≤ length list.new }
        ensures shaped { Shaped (other order.now.side) (levels (other order.now.side) (market_of self.old)) }
    {
        // A function that lends a side and the places would be no plainer: it would owe the facts of a book for whatever is written to them.
        match order.side {
            Side::Buy => meet(
                &mut self.sells,
                &mut self.places,
                &mut self.scratch,
                policy,
                order,
                list,
            ),
            Side::Sell => meet(
                &mut self.buys,
                &mut self.places,
                &mut self.scratch,
                policy,
                order,
                list,
            ),
        }
    }

    /// What is left of the order rests at its own price.
    fn rest(&mut self, order: &NewOrder, left: u32)
        requires new { known order.now.member order.now.order (market_of self.old) ≡ false }
        requires short { 0 < left → all_resting (market_of self.old) < capacity }
        requires most { left ≤ 999999 }
        ensures market { market_of self.new ≡ with_levels order.now.side (rests (order_figures order.now) left (levels order.now.side (market_of self.old))) (market_of self.old) }
    {
        if left == 0 {
            return;
        }
        let place = Place {
            side: order.side,
            price: order.price,
        };
        let resting = Resting {
            member: order.member,
            order: order.order,
            lots: left,
        };
        match order.side {
            Side::Buy => rest(&mut self.buys, &mut self.places, place, resting),
            Side::Sell => rest(&mut self.sells, &mut self.places, place, resting),
        }
    }

    /// A new order that is not turned down: it meets the other side, and what is left of it rests.
    fn trade<P: Policy>(&mut self, policy: &P, order: &NewOrder, list: &mut [Entry]) -> usize
        requires long { 2049 ≤ length list.old }
        requires admitted { order_refusal (order_figures order.now) (market_of self.old) ≡ None }
        ensures market { market_of self.new ≡ (trades (P.Policy.split policy.now) (order_figures order.now) (market_of self.old)).market }
        ensures front { take result list.new ≡ (trades (P.Policy.split policy.now) (order_figures order.now) (market_of self.old)).entries }
        ensures back { drop result list.new ≡ drop result list.old }
        ensures upto { result ≤ length list.new }
    {
        let accepted = Event::Accepted {
            side: order.side,
            lots: order.lots,
        };
        list[0] = entry_for(order, accepted);
        let done = self.meet(policy, order, list);
        self.rest(order, done.left);
        done.written
    }

    fn put_order<P: Policy>(&mut self, policy: &P, order: &NewOrder, list: &mut [Entry]) -> usize
        requires long { 2049 ≤ length list.old }
        ensures market { market_of self.new ≡ (put_order (P.Policy.split policy.now) (order_figures order.now) (market_of self.old)).market }
        ensures front { take result list.new ≡ (put_order (P.Policy.split policy.now) (order_figures order.now) (market_of self.old)).entries }
        ensures back { drop result list.new ≡ drop result list.old }
        ensures upto { result ≤ length list.new }
    {
        match self.refusal(order) {
            None => self.trade(policy, order, list),
            Some(reason) => {
                let turned_down = Event::OrderTurnedDown {
                    side: order.side,
                    reason,
                };
                list[0] = entry_for(order, turned_down);
                1
            }
        }
    }

    /// Takes out the order that rests, or turns the cancel down.
    fn put_cancel(&mut self, cancel: &Cancel) -> Entry
        ensures market { market_of self.new ≡ (put_cancel (cancel_figures cancel.now) (market_of self.old)).market }
        ensures entries { result ∷ [] ≡ (put_cancel (cancel_figures cancel.now) (market_of self.old)).entries }
    {
        let member = cancel.member;
        let order = cancel.order;
        let event = match self.places.remove(&OrderId { order, member }) {
            None => Event::CancelTurnedDown {
                reason: Reason::UnknownOrder,
            },
            Some(node) => {
                let place = node.value;
                let taken = match place.side {
                    Side::Buy => take_out(&mut self.buys, place, member, order),
                    Side::Sell => take_out(&mut self.sells, place, member, order),
                };
                Event::Cancelled {
                    side: place.side,
                    lots: taken.lots,
                }
            }
        };
        Entry {
            command: cancel.number,
            member,
            order,
            event,
        }
    }

    /// Puts the command through: its entries stand at the list's front, and the answer is their count. A list under 2,049 is refused, and then nothing
    /// is changed.
    pub fn put_through<P: Policy>(
        &mut self,
        policy: &P,
        command: &Command,
        list: &mut [Entry],
    ) -> Result<usize, ListTooShort>
        ensures answers { answer result ≡ putting (length list.old) (length (put (P.Policy.split policy.now) (figures command.now) (market_of self.old)).entries) }
        ensures market { market_of self.new ≡ if_answered (putting (length list.old) (length (put (P.Policy.split policy.now) (figures command.now) (market_of self.old)).entries)) (put (P.Policy.split policy.now) (figures command.now) (market_of self.old)).market (market_of self.old) }
        ensures list { list.new ≡ if_answered (putting (length list.old) (length (put (P.Policy.split policy.now) (figures command.now) (market_of self.old)).entries)) (written (put (P.Policy.split policy.now) (figures command.now) (market_of self.old)).entries list.old) list.old }
    {
        if list.len() < MOST_ENTRIES {
            return Err(ListTooShort);
        }
        match command {
            Command::New(order) => Ok(self.put_order(policy, order, list)),
            Command::Cancel(cancel) => {
                list[0] = self.put_cancel(cancel);
                Ok(1)
            }
        }
    }
}
