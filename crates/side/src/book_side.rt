// One side of a book. None can exist whose levels are out of order or empty, or at which more orders rest than a book holds.
ghost use Rattle.side.specs.Rank.{priced};
ghost use Rattle.side.specs.Shape.{Shaped, sorted_prop};
ghost use Rattle.std.proofs.Props.{props};

use crate::levels::Levels;
use fix::Side;
use market::Resting;

/// The levels of one side, best first.
#[derive(Drop)]
pub struct BookSide {
    pub(crate) side: Side,
    /// by the ranks of their prices
    pub(crate) levels: Levels,
    ghost shaped: { Shaped side (priced side levels) } by { Prim.hlevel (sorted_prop, props) },
}

/// A level as it is looked at.
#[derive(Clone, Copy, PartialEq, Eq, Debug)]
pub struct LevelAt<'a> {
    pub price: u32,
    /// oldest first
    pub queue: &'a [Resting],
    /// of the queue together
    pub lots: u32,
}
