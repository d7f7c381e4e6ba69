ghost use Rattle.std.specs.Prelude.{◌≡◌, ◌≤◌, true};
ghost use Rattle.side.specs.Rank.{in_range as is_in_range, turned};

use fix::{LARGEST_PRICE, Side};

pub(crate) fn in_range(price: u32) -> bool
    ensures value { result ≡ is_in_range price }
{
    1 <= price && price <= LARGEST_PRICE
}

/// The rank of a price, or the price of a rank.
pub(crate) fn turn(side: Side, price: u32) -> u32
    ensures value { result ≡ turned side price }
{
    match side {
        Side::Buy => (LARGEST_PRICE + 1).saturating_sub(price),
        Side::Sell => price,
    }
}
