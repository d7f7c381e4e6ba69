ghost use Rattle.std.specs.Prelude.{◌≡◌, length};
ghost use Rattle.allocation.specs.Range.{tradable, all_tradable, in_range, tested};
ghost use Rattle.allocation.specs.Refusal.{answer};

use crate::refusal::AllocationRefusal;

/// The most lots of one order: an order's quantity has at most six digits.
pub const MOST_LOTS: u32 = 999_999;

/// The most orders at one price: as many as a level holds.
pub const MOST_ORDERS: usize = 1_024;

/// Whether an order may have as many lots: 1 to 999,999.
pub fn is_tradable(lots: u32) -> bool
    ensures value { result ≡ tradable lots }
{
    1 <= lots && lots <= MOST_LOTS
}

/// Looks at every order and does not stop at the first that fails, so that the loop has no way out and runs in vectors.
fn all_are_tradable(lots: &[u32]) -> bool
    ensures value { result ≡ all_tradable lots.now }
{
    let mut all = true;
    for order in lots {
        all &= is_tradable(*order);
    }
    all
}

fn is_in_range(quantity: u32, lots: &[u32]) -> bool
    ensures value { result ≡ in_range quantity lots.now }
{
    lots.len() <= MOST_ORDERS && is_tradable(quantity) && all_are_tradable(lots)
}

/// The test that every policy makes before it writes a fill: `room` is how many fills there is room for.
pub(crate) fn test(quantity: u32, lots: &[u32], room: usize) -> Result<(), AllocationRefusal>
    ensures value { answer result ≡ tested quantity lots.now room }
{
    if lots.len() != room {
        return Err(AllocationRefusal::LengthsDiffer);
    }
    if !is_in_range(quantity, lots) {
        return Err(AllocationRefusal::OutOfRange);
    }
    Ok(())
}
