ghost use Rattle.std.specs.Prelude.{◌≡◌, ◌≤◌, length};
ghost use Rattle.allocation.specs.Fifo.{fifo};
ghost use Rattle.std.proofs.lemmas.List.Elements.{length_all_zip};
ghost use Rattle.allocation.specs.InTurn.{fifo_within, fifo_full};
ghost use Rattle.allocation.specs.Rows.{each_le_at};

use crate::policies::Policy;

/// First in, first out.
#[derive(Clone, Copy, PartialEq, Eq, Debug)]
pub struct Fifo;

/// Each order in turn takes what it can of what is left.
fn fill_in_turn(quantity: u32, lots: &[u32], fills: &mut [u32])
    requires level { length lots.now ≡ length fills.old }
    ensures writes { fills.new ≡ fifo quantity lots.now }
{
    let mut left = quantity;
    // by the place, since an adapter of `iter_mut` does not tell a proof what was written
    for (i, order) in lots.iter().enumerate() {
        let fill = left.min(*order);
        fills[i] = fill;
        left -= fill;
    }
}

impl Policy for Fifo {
    const LETTER: u8 = b'F';

    ghost LETTER = { 70 };

    ghost split = { λ _ quantity lots. fifo quantity lots };

    ghost as_many = { λ p q ls. length_all_zip ◌≤◌ (fifo q ls) ls (fifo_within q ls) };

    ghost within = { λ p q ls i. each_le_at (fifo q ls) ls (fifo_within q ls) i };

    ghost full = { λ p q ls. fifo_full q ls };

    fn fill(&self, quantity: u32, lots: &[u32], fills: &mut [u32]) {
        fill_in_turn(quantity, lots, fills);
    }
}
