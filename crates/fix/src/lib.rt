// FIX messages of new orders and cancels, with exactly one spelling for each command.
#![tactic(auto)]

// commands, with their ranges as invariants
mod command;
// the fields of a message, one after the other
mod layout;
// the laws: each command has one spelling, and that is read back
mod laws;
// messages read
mod reading;
// why a message is refused
mod refusal;
// the number of a side, and commands from figures that may be out of range
mod figures;
// fields written into a buffer
mod writer;
// messages written
mod writing;

pub use command::{Cancel, Command, LARGEST_PRICE, NewOrder, Side};
pub use laws::one_spelling;
pub use reading::{First, read, read_first};
pub use refusal::{BufferTooShort, MessageRefusal, OutOfRange};
pub use writing::{LONGEST, length, write};

#[cfg(test)]
mod tests;
