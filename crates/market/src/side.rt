// The two sides of a market.
ghost use Rattle.std.specs.Prelude.{◌≡◌};
ghost use Rattle.market.specs.Market.{other as opposite};
ghost use Rattle.market.specs.Tally.{same_side};

use fix::Side;

/// The side that a side trades with.
pub fn other(side: Side) -> Side
    ensures value { result ≡ opposite side }
{
    match side {
        Side::Buy => Side::Sell,
        Side::Sell => Side::Buy,
    }
}

/// Whether two sides are one, as `==` has it. It stands for those who called it before sides compared.
pub fn is_same(a: Side, b: Side) -> bool
    ensures value { result ≡ same_side a b }
{
    a == b
}
