// Drives of 512-byte blocks, by what they show and by what a power cut may leave of them. docs/DRIVES.md has the meaning.
#![tactic(auto)]

// the sizes
mod limits;
// what is refused
pub mod refusal;
// blocks copied from memory and to it
mod blocks;
// what a drive is, and the drives
pub mod drives;
// zeros in every block of any drive
mod zero;
// what every drive promises
mod promises;

// examples that are run
#[cfg(test)]
mod tests;

pub use drives::held_back::HeldBack;
pub use drives::image::Image;
pub use drives::plain::Plain;
pub use drives::{Drive, ReadDrive};
pub use limits::{BLOCK_SIZE, MOST_HELD};
pub use promises::{drives_promise, tests_are_as_told};
pub use refusal::DriveRefusal;
pub use zero::zero_all;
