// Levels that an incoming order meets.
ghost use Rattle.std.specs.Prelude.{◌≡◌, ◌+◌, ◌*◌, ◌<◌, ◌≤◌, true, length};
ghost use Rattle.allocation.specs.Range.{tradable};
ghost use Rattle.level.specs.Queue.{queue_of};
ghost use Rattle.level.specs.Trade.{Reported};
ghost use Rattle.fix.specs.Command.{order_figures};
ghost use Rattle.fix.specs.declared.command.Side.TheVariants.{Sell};
ghost use Rattle.market.specs.Market.{lots_of, other};
ghost use Rattle.market.specs.Put.{after_fills};
ghost use Rattle.side.specs.Meeting.{first_queue, first_rank, best_filled, Meets};
ghost use Rattle.side.specs.Rank.{turned, priced};
ghost use Rattle.side.specs.Shape.{Shaped};

use crate::levels::{Levels, close};
use crate::rank::turn;
use allocation::Policy;
use fix::{NewOrder, Side};
use level::{Level, MOST_ORDERS, Progress, Scratch};
use market::Entry;

/// Trades with a level.
fn trade<P: Policy>(
    level: &mut Level,
    policy: &P,
    scratch: &mut Scratch,
    order: &NewOrder,
    price: u32,
    before: Progress,
    list: &mut [Entry],
) -> Progress
    requires left { tradable before.left ≡ true }
    requires room { before.written + 2 * length (queue_of level.old) ≤ length list.old }
    ensures queue { queue_of level.new ≡ after_fills (P.Policy.split policy.now before.left (lots_of (queue_of level.old))) (queue_of level.old) }
    ensures reported { Reported (order_figures order.now) price (P.Policy.split policy.now before.left (lots_of (queue_of level.old))) (queue_of level.old) list.old list.new before result }
{
    match level.trade(policy, scratch, order, price, before, list) {
        Ok(after) => after,
        Err(_) => unreachable(),
    }
}

impl Levels {
    /// Trades with the best level, and takes it out where nothing is left of it.
    fn trade_best<P: Policy>(
        &mut self,
        policy: &P,
        scratch: &mut Scratch,
        side: Side,
        order: &NewOrder,
        before: Progress,
        list: &mut [Entry],
    ) -> Progress
        requires some { 0 < length self.old }
        requires left { tradable before.left ≡ true }
        requires room { before.written + 2 * length (first_queue self.old) ≤ length list.old }
        ensures levels { self.new ≡ best_filled (P.Policy.split policy.now before.left) self.old }
        ensures reported { Reported (order_figures order.now) (turned side (first_rank self.old)) (P.Policy.split policy.now before.left (lots_of (first_queue self.old))) (first_queue self.old) list.old list.new before result }
    {
        let price = turn(side, self.nodes()[0].key.0);
        let Some(best) = self.held.first_mut() else {
            unreachable()
        };
        let stood = best.len();
        let after = trade(best, policy, scratch, order, price, before, list);
        let stays = best.len();
        self.orders -= stood - stays;
        if stays == 0 {
            close(&mut self.spare, self.held.pop_first());
        }
        after
    }

    /// Trades with one level after another, best first, as far as the order's lots and its price go.
    pub(crate) fn meet<P: Policy>(
        &mut self,
        policy: &P,
        scratch: &mut Scratch,
        side: Side,
        order: &NewOrder,
        start: usize,
        list: &mut [Entry],
    ) -> Progress
        requires side { side ≡ other order.now.side }
        requires room { start + 2048 ≤ length list.old }
        ensures shaped { Shaped Sell self.old }
        ensures still { Shaped Sell self.new }
        ensures meets { Meets (P.Policy.split policy.now) (order_figures order.now) (priced side self.old) (priced side self.new) list.old list.new start result }
    {
        // so that the list has room for two entries of each
        prove!(self.orders <= MOST_ORDERS);
        let limit = turn(side, order.price);
        let mut after = Progress {
            left: order.lots,
            written: start,
        };
        while self.crosses(after.left, limit) {
            after = self.trade_best(policy, scratch, side, order, after, list);
        }
        after
    }
}
