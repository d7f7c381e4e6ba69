ghost use Rattle.std.specs.Prelude.{◌≡◌};
ghost use Rattle.std.specs.declared.cmp.Ordering.TheVariants.{Equal};

// the number by which an order is named
pub mod order_id;
// the price of a level
pub mod price;

// A kind of key: it has a total order, and keys that compare equal are one key.
pub trait Key: Ord {
    ghost same: { (a b : Self) → Self.cmp a b ≡ Equal → a ≡ b };
}
