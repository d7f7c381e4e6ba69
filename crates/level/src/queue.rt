// Orders that join a level, leave it or are looked for.
ghost use Rattle.std.specs.Prelude.{◌≡◌, ◌<◌, ◌≤◌, [], ◌∷◌, ◌++◌, length, IfOk, Some, None, MatchOption, slice_index_or};
ghost use Rattle.answers.specs.Answer.{if_answered};
ghost use Rattle.std.specs.List.{remove};
ghost use Rattle.allocation.specs.Range.{tradable as is_tradable};
ghost use Rattle.market.specs.declared.resting.Resting.{Resting};
ghost use Rattle.market.specs.Market.{lots_of, total, in_queue};
ghost use Rattle.market.specs.Put.{out_of_queue};
ghost use Rattle.level.specs.Queue.{queue_of};
ghost use Rattle.level.specs.Refusal.{add_answer, addition};

use crate::level::Level;
use crate::refusal::AddRefusal;
use allocation::{MOST_ORDERS, is_tradable};
use market::Resting;
use std::alloc::{AllocError, Global};

impl Level {
    /// A level with no orders, with memory for as many as can rest. Nothing allocates after this.
    pub fn new(heap: Global) -> Result<Level, AllocError>
        ensures made { IfOk result (λ level. queue_of level ≡ []) }
    {
        let queue = Vec::with_capacity(heap, MOST_ORDERS)?;
        Ok(Level { queue, lots: 0 })
    }

    /// Takes every order out.
    pub fn clear(&mut self)
        ensures queue { queue_of self.new ≡ [] }
    {
        self.queue.clear();
        self.lots = 0;
    }

    /// How many orders rest.
    pub fn len(&self) -> usize
        ensures value { result ≡ length (queue_of self.now) }
        ensures few { result ≤ 1024 }
    {
        self.queue.len()
    }

    /// The orders, oldest first.
    pub fn queue(&self) -> &[Resting]
        ensures value { result.now ≡ queue_of self.now }
    {
        self.queue.as_slice()
    }

    /// Their lots together.
    pub fn lots(&self) -> u32
        ensures value { result ≡ total (lots_of (queue_of self.now)) }
    {
        self.lots
    }

    /// The order joins last, unless its lots are out of range or the level is full.
    pub fn add(&mut self, order: Resting) -> Result<(), AddRefusal>
        ensures answers { add_answer result ≡ addition order.lots (length (queue_of self.old)) }
        ensures queue { queue_of self.new ≡ if_answered (addition order.lots (length (queue_of self.old))) (queue_of self.old ++ order ∷ []) (queue_of self.old) }
    {
        if !is_tradable(order.lots) {
            return Err(AddRefusal::LotsOutOfRange);
        }
        if self.queue.len() == MOST_ORDERS {
            return Err(AddRefusal::Full);
        }
        self.lots += order.lots;
        self.queue.push_reserved(order);
        Ok(())
    }

    /// Takes out the member's order of that number.
    pub fn take_out(&mut self, member: u32, order: u32) -> Option<Resting>
        ensures value { result ≡ in_queue member order (queue_of self.old) }
        ensures queue { queue_of self.new ≡ out_of_queue member order (queue_of self.old) }
    {
        let place = place_of(self.queue.as_slice(), member, order)?;
        let taken = self.queue.remove(place);
        self.lots -= taken.lots;
        Some(taken)
    }
}

/// The place of the member's order of that number.
fn place_of(queue: &[Resting], member: u32, order: u32) -> Option<usize>
    ensures value { MatchOption result ((in_queue member order queue.now ≡ None) × (out_of_queue member order queue.now ≡ queue.now)) (λ place. (place < length queue.now) × (remove queue.now place ≡ out_of_queue member order queue.now) × ((d : Resting) → in_queue member order queue.now ≡ Some (slice_index_or queue.now place d))) }
{
    queue.iter().position(|resting| resting.member == member && resting.order == order)
}
