ghost use Rattle.std.specs.Prelude.{◌≡◌, ℕ, ◌≤◌, min, List, length, sum, slice_index};
ghost use Rattle.answers.specs.Answer.{if_answered};
ghost use Rattle.allocation.specs.Refusal.{answer};
ghost use Rattle.allocation.specs.Range.{tested, InRange};

use crate::range::test;
use crate::refusal::AllocationRefusal;

/// first in, first out
pub mod fifo;
/// in proportion to the lots
pub mod pro_rata;

/// How the lots of an incoming order are split over the orders at one price, which stand oldest first.
pub trait Policy {
    /// The policy's one letter.
    const LETTER: u8;

    ghost LETTER: { ℕ };

    /// The fills that a quantity and the orders' lots come to.
    ghost split: { Self → ℕ → List ℕ → List ℕ };

    /// Writes the split of what is in range into as many fills as there are orders. Lots and fills are two slices, so that loops over them run in vectors,
    /// and come with the quantity: a struct would be made of a number and two borrows at each call.
    fn fill(&self, quantity: u32, lots: &[u32], fills: &mut [u32])
        requires range { InRange quantity lots.now }
        requires level { length lots.now ≡ length fills.old }
        ensures writes { fills.new ≡ split self.now quantity lots.now };

    /// Writes the split into `fills`. A refusal leaves them as they were.
    final fn allocate(
        &self,
        quantity: u32,
        lots: &[u32],
        fills: &mut [u32],
    ) -> Result<(), AllocationRefusal>
        ensures answers { answer result ≡ tested quantity lots.now (length fills.old) }
        ensures writes { fills.new ≡ if_answered (tested quantity lots.now (length fills.old)) (split self.now quantity lots.now) fills.old }
    {
        test(quantity, lots, fills.len())?;
        self.fill(quantity, lots, fills);
        Ok(())
    }

    /// There are as many fills as orders.
    ghost as_many: { (policy : Self) (quantity : ℕ) (lots : List ℕ) → length (split policy quantity lots) ≡ length lots };

    /// No order is filled beyond its lots.
    ghost within: { (policy : Self) (quantity : ℕ) (lots : List ℕ) (place : ℕ) → slice_index (split policy quantity lots) place ≤ slice_index lots place };

    /// The fills come to the quantity, or to all the lots where there are fewer.
    ghost full: { (policy : Self) (quantity : ℕ) (lots : List ℕ) → sum (split policy quantity lots) ≡ min quantity (sum lots) };
}
