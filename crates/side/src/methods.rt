// What a side does.
ghost use Rattle.std.specs.Prelude.{◌≡◌, ◌<◌, ◌≤◌, [], length, IfOk, MatchResult};
ghost use Rattle.answers.specs.Answer.{if_answered};
ghost use Rattle.std.specs.Option.{option_map};
ghost use Rattle.std.specs.List.{slice_get};
ghost use Rattle.fix.specs.Command.{order_figures};
ghost use Rattle.market.specs.Market.{Level as PriceLevel, resting, in_queue, best as best_of, lots_of, total};
ghost use Rattle.market.specs.Put.{joins};
ghost use Rattle.side.specs.Levels.{side_of, levels_of};
ghost use Rattle.side.specs.declared.book_side.LevelAt.{LevelAt};
ghost use Rattle.market.specs.Prices.{queue_at};
ghost use Rattle.side.specs.Queues.{out_at};
ghost use Rattle.side.specs.Meeting.{Meets};
ghost use Rattle.side.specs.Shape.{Shaped};
ghost use Rattle.side.specs.Refusal.{join_answer, joining, meet_answer, meeting};

use crate::book_side::{BookSide, LevelAt};
use crate::levels::Levels;
use crate::rank::{in_range, turn};
use crate::refusal::{JoinRefusal, MeetRefusal};
use allocation::{Policy, is_tradable};
use fix::{NewOrder, Side};
use level::{MOST_ORDERS, Progress, Scratch};
use market::{Entry, Resting, is_same};
use ordered::Price;
use std::alloc::{AllocError, Global};

impl BookSide {
    /// A side at which nothing rests, with memory for 1,024 levels of 1,024 orders. Nothing allocates after this.
    pub fn new(heap: Global, side: Side) -> Result<BookSide, AllocError>
        ensures made { IfOk result (λ b. (levels_of b ≡ []) × (side_of b ≡ side)) }
    {
        let levels = Levels::new(heap)?;
        Ok(BookSide { side, levels })
    }

    /// How many orders rest.
    pub fn len(&self) -> usize
        ensures value { result ≡ resting (levels_of self.now) }
        ensures few { result ≤ 1024 }
        ensures shaped { Shaped (side_of self.now) (levels_of self.now) }
    {
        self.levels.orders()
    }

    /// The best price, or none where nothing rests.
    pub fn best(&self) -> Option<u32>
        ensures value { result ≡ best_of (levels_of self.now) }
    {
        match self.levels.nodes() {
            [] => None,
            [first, ..] => Some(turn(self.side, first.key.0)),
        }
    }

    /// The order joins its level last, or opens it. A refusal leaves the side as it was.
    pub fn join(&mut self, price: u32, order: Resting) -> Result<(), JoinRefusal>
        ensures answers { join_answer result ≡ joining price order.lots (resting (levels_of self.old)) }
        ensures levels { levels_of self.new ≡ if_answered (joining price order.lots (resting (levels_of self.old))) (joins (side_of self.old) price order (levels_of self.old)) (levels_of self.old) }
        ensures side { side_of self.new ≡ side_of self.old }
    {
        if !in_range(price) {
            return Err(JoinRefusal::PriceOutOfRange);
        }
        if !is_tradable(order.lots) {
            return Err(JoinRefusal::LotsOutOfRange);
        }
        if self.len() == MOST_ORDERS {
            return Err(JoinRefusal::Full);
        }
        let rank = Price(turn(self.side, price));
        self.levels.join(rank, order);
        Ok(())
    }

    /// Takes out the order of that member and number where it rests at the price.
    pub fn take_out(&mut self, price: u32, member: u32, order: u32) -> Option<Resting>
        ensures value { result ≡ in_queue member order (queue_at price (levels_of self.old)) }
        ensures levels { levels_of self.new ≡ out_at price member order (levels_of self.old) }
        ensures shaped { Shaped (side_of self.old) (levels_of self.old) }
        ensures side { side_of self.new ≡ side_of self.old }
    {
        let rank = Price(turn(self.side, price));
        self.levels.take_out(rank, member, order)
    }

    /// The incoming order meets the levels that cross it, best first, and the entries are written behind the first `start`. A refusal leaves the
    /// side and the list as they were.
    pub fn meet<P: Policy>(
        &mut self,
        policy: &P,
        scratch: &mut Scratch,
        order: &NewOrder,
        start: usize,
        list: &mut [Entry],
    ) -> Result<Progress, MeetRefusal>
        ensures answers { meet_answer result ≡ meeting order.now.side (side_of self.old) start (length list.old) }
        ensures told { MatchResult result (λ after. Meets (P.Policy.split policy.now) (order_figures order.now) (levels_of self.old) (levels_of self.new) list.old list.new start after) (λ _. (levels_of self.new ≡ levels_of self.old) × (list.new ≡ list.old)) }
        ensures shaped { IfOk result (λ _. Shaped (side_of self.old) (levels_of self.old)) }
        ensures side { side_of self.new ≡ side_of self.old }
    {
        if is_same(order.side, self.side) {
            return Err(MeetRefusal::SameSide);
        }
        if list.len() < 2 * MOST_ORDERS || list.len() - 2 * MOST_ORDERS < start {
            return Err(MeetRefusal::ListTooShort);
        }
        Ok(
            self.levels
                .meet(policy, scratch, self.side, order, start, list),
        )
    }

    /// Takes every order out.
    pub fn clear(&mut self)
        ensures levels { levels_of self.new ≡ [] }
        ensures side { side_of self.new ≡ side_of self.old }
    {
        self.levels.clear();
    }

    /// How many levels there are.
    pub fn levels(&self) -> usize
        ensures value { result ≡ length (levels_of self.now) }
    {
        self.levels.nodes().len()
    }

    /// The level at a place, the best at 0.
    pub fn level_at(&self, place: usize) -> Option<LevelAt<'_>>
        ensures price { option_map (λ (l : LevelAt). l.price) result ≡ option_map (λ (l : PriceLevel). l.price) (slice_get (levels_of self.now) place) }
        ensures queue { option_map (λ (l : LevelAt). l.queue.now) result ≡ option_map (λ (l : PriceLevel). l.queue) (slice_get (levels_of self.now) place) }
        ensures lots { option_map (λ (l : LevelAt). l.lots) result ≡ option_map (λ (l : PriceLevel). total (lots_of l.queue)) (slice_get (levels_of self.now) place) }
    {
        let nodes = self.levels.nodes();
        let node = nodes.get(place)?;
        Some(LevelAt {
            price: turn(self.side, nodes[place].key.0),
            queue: node.value.queue(),
            lots: node.value.lots(),
        })
    }
}
