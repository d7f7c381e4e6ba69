// A level. None can exist whose lots are not those of its queue together.
ghost use Rattle.std.specs.Prelude.{◌≡◌, ◌≤◌, true, vec_len, vec_capacity};
ghost use Rattle.allocation.specs.Range.{all_tradable};
ghost use Rattle.market.specs.Market.{lots_of, total};

use market::Resting;

/// The orders at one price, oldest first.
#[derive(Drop)]
pub struct Level {
    pub(crate) queue: Vec<Resting>,
    /// the lots of the queue together
    pub(crate) lots: u32,
    ghost together: { lots ≡ total (lots_of queue.items) },
    ghost tradable: { all_tradable (lots_of queue.items) ≡ true },
    ghost few: { vec_len queue ≤ 1024 },
    ghost reserved: { 1024 ≤ vec_capacity queue },
}
