// One side of a book: its levels, best first.
#![tactic(auto)]

// the side, with its levels, queues and counts in step
mod book_side;
// what it does
mod methods;
// its levels, with those that are spare
mod levels;
// prices in the order in which they are met
mod rank;
// why a side is left as it was
mod refusal;

pub use book_side::{BookSide, LevelAt};
pub use refusal::{JoinRefusal, MeetRefusal};
