// Sealed blocks: 512 bytes that hold one payload under a checksum, each a full record of LevelDB's log format.
#![tactic(auto)]

// the sizes and places of the format
mod format;
// the laws of sealing and reading
mod law;
// the checksum as it is stored
mod mask;
// whether a block is sealed, and its payload
mod payload;
// the block of a payload
mod sealer;
// whether bytes are all zero
mod zero;

pub use format::{BLOCK, LONGEST, PLACE};
pub use law::sealing_laws_hold;
pub use payload::{Payload, check};
pub use sealer::{SealRefusal, seal};
pub use zero::is_zero;

#[cfg(test)]
mod tests;
