ghost use Rattle.std.specs.Prelude.{◌≡◌, ◌<◌, ◌≤◌, ◌≢◌, length};
ghost use Rattle.std.specs.List.{All, AllPairs};
ghost use Rattle.drive.specs.Block.{block_size, whole};
ghost use Rattle.drive.specs.declared.limits.TheConstants.{MOST_HELD};

use crate::limits::{BLOCK_SIZE, MOST_HELD};
use arrayvec::ArrayVec;

// the drive's reads, writes and flushes
mod calls;
// how it is made, and how it ends
mod ends;
// how blocks come to be held, and are put out
mod holding;

// A block that is held, with its newest bytes.
#[derive(Clone, Copy, Default)]
struct HeldBlock {
    number: usize,
    bytes: [u8; BLOCK_SIZE],
}

// Keeps the newest bytes of up to 16 blocks aside from its memory, until a flush.
#[derive(Drop)]
pub struct HeldBack {
    memory: Vec<u8>,
    // in the order in which they came to be held
    held: ArrayVec<HeldBlock, MOST_HELD>,
    ghost few: { length held.items ≤ MOST_HELD },
    ghost sized: { All (λ h. length h.bytes ≡ block_size) held.items },
    ghost below: { All (λ h. h.number < whole (length memory.items)) held.items },
    ghost apart: { AllPairs (λ g h. g.number ≢ h.number) held.items },
}
