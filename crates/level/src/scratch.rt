ghost use Rattle.std.specs.Prelude.{◌≡◌, ◌≤◌, [], length, IfOk, vec_len, vec_capacity, MatchResult};
ghost use Rattle.answers.specs.Answer.{answered, refused};
ghost use Rattle.allocation.specs.Range.{tested};
ghost use Rattle.allocation.specs.Refusal.{number_of};
ghost use Rattle.market.specs.Market.{lots_of};

use allocation::{AllocationRefusal, MOST_ORDERS, Policy};
use market::Resting;
use std::alloc::{AllocError, Global};

/// Room to split a quantity over a queue: lots and fills apart, as a policy takes them. What stands in it between two trades means nothing.
#[derive(Drop)]
pub struct Scratch {
    lots: Vec<u32>,
    fills: Vec<u32>,
    ghost lots_reserved: { 1024 ≤ vec_capacity lots },
    ghost fills_reserved: { 1024 ≤ vec_capacity fills },
}

impl Scratch {
    /// Reserves the memory; no split allocates after this.
    pub fn new(heap: Global) -> Result<Scratch, AllocError>
        ensures made { IfOk result (λ s. (vec_len s.lots ≡ 0) × (vec_len s.fills ≡ 0)) }
    {
        let lots = Vec::with_capacity(heap, MOST_ORDERS)?;
        let fills = Vec::with_capacity(heap, MOST_ORDERS)?;
        Ok(Scratch { lots, fills })
    }

    /// The policy's fills of a quantity over a queue.
    pub(crate) fn split<P: Policy>(
        &mut self,
        policy: &P,
        quantity: u32,
        queue: &[Resting],
    ) -> Result<&[u32], AllocationRefusal>
        requires few { length queue.now ≤ 1024 }
        ensures splits { MatchResult result (λ fills. (tested quantity (lots_of queue.now) (length queue.now) ≡ answered tt) × (fills.now ≡ P.Policy.split policy.now quantity (lots_of queue.now))) (λ why. tested quantity (lots_of queue.now) (length queue.now) ≡ refused (number_of why) []) }
    {
        copy_lots(queue, &mut self.lots, &mut self.fills);
        policy.allocate(quantity, self.lots.as_slice(), self.fills.as_mut_slice())?;
        Ok(self.fills.as_slice())
    }
}

/// The lots of a queue, with places for as many fills.
fn copy_lots(queue: &[Resting], lots: &mut Vec<u32>, fills: &mut Vec<u32>)
    requires lots_fit { length queue.now ≤ vec_capacity lots.old }
    requires fills_fit { length queue.now ≤ vec_capacity fills.old }
    ensures lots { lots.new.items ≡ lots_of queue.now }
    ensures fills { vec_len fills.new ≡ length queue.now }
    ensures lots_memory { vec_capacity lots.new ≡ vec_capacity lots.old }
    ensures fills_memory { vec_capacity fills.new ≡ vec_capacity fills.old }
{
    lots.clear();
    fills.clear();
    for resting in queue {
        lots.push_reserved(resting.lots);
        fills.push_reserved(0);
    }
}
