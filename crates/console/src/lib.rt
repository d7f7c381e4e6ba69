// What people see: messages taken one by one from a run of bytes, rows of tables, and refusals in words.
#![tactic(auto)]

// messages back to back
mod feed;
// bytes as people type them
mod shown;
// rows and words
mod table;

pub use feed::messages::Messages;
pub use feed::{Feed, Stopped};
pub use shown::unshow;
pub use table::{HEADER, Refused, Row};

#[cfg(test)]
mod tests;
