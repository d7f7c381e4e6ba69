ghost use Rattle.std.specs.Prelude.{◌≡◌, ◌<◌, ◌≤◌, map, length, sum};
ghost use Rattle.std.specs.List.{AllZip};
ghost use Rattle.allocation.specs.Range.{most_lots, most_orders, InRange};
ghost use Rattle.allocation.specs.ProRata.{share, topped_up, pro_rata};
ghost use Rattle.std.proofs.lemmas.List.Elements.{length_all_zip};
ghost use Rattle.allocation.specs.Shares.{pro_rata_within, pro_rata_full};
ghost use Rattle.allocation.specs.Rows.{each_le_at};

use crate::policies::Policy;

/// In proportion to the lots.
#[derive(Clone, Copy, PartialEq, Eq, Debug)]
pub struct ProRata;

fn total_of(lots: &[u32]) -> u64
    requires few { length lots.now ≤ most_orders }
    ensures value { result ≡ sum lots.now }
{
    lots.iter().map(|order| u64::from(*order)).sum()
}

/// Gives each order its share of `trades`, rounded down, and returns what the shares come to.
fn give_shares(trades: u64, total: u64, lots: &[u32], fills: &mut [u32]) -> u64
    requires few { length lots.now ≤ most_orders }
    requires level { length lots.now ≡ length fills.old }
    requires some { 0 < total }
    requires part { trades ≤ total }
    requires small { trades ≤ most_lots }
    ensures writes { fills.new ≡ map (share trades total) lots.now }
    ensures value { result ≡ sum (map (share trades total) lots.now) }
{
    let mut given = 0;
    // by the place, since an adapter of `iter_mut` does not tell a proof what was written
    for (i, order) in lots.iter().enumerate() {
        let share = trades * *order as u64 / total;
        fills[i] = share as u32;
        given += share;
    }
    given
}

/// Deals `more`, the oldest first, over what each order still has. It stops where nothing is left, mostly after a few orders.
fn top_up(more: u64, lots: &[u32], fills: &mut [u32])
    requires level { length lots.now ≡ length fills.old }
    requires within { AllZip ◌≤◌ fills.old lots.now }
    ensures writes { fills.new ≡ topped_up more fills.old lots.now }
{
    let mut left = more;
    // by the place, as above
    for (i, order) in lots.iter().enumerate() {
        if left == 0 {
            break;
        }
        let fill = left.min((*order - fills[i]) as u64);
        fills[i] += fill as u32;
        left -= fill;
    }
}

/// The three passes: the total, the shares, the remainder.
fn fill_in_proportion(quantity: u32, lots: &[u32], fills: &mut [u32])
    requires range { InRange quantity lots.now }
    requires level { length lots.now ≡ length fills.old }
    ensures writes { fills.new ≡ pro_rata quantity lots.now }
{
    if lots.is_empty() {
        return;
    }
    let total = total_of(lots);
    let trades = (quantity as u64).min(total);
    let given = give_shares(trades, total, lots, fills);
    top_up(trades - given, lots, fills);
}

impl Policy for ProRata {
    const LETTER: u8 = b'C';

    ghost LETTER = { 67 };

    ghost split = { λ _ quantity lots. pro_rata quantity lots };

    ghost as_many = { λ p q ls. length_all_zip ◌≤◌ (pro_rata q ls) ls (pro_rata_within q ls) };

    ghost within = { λ p q ls i. each_le_at (pro_rata q ls) ls (pro_rata_within q ls) i };

    ghost full = { λ p q ls. pro_rata_full q ls };

    fn fill(&self, quantity: u32, lots: &[u32], fills: &mut [u32]) {
        fill_in_proportion(quantity, lots, fills);
    }
}
