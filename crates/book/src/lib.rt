// The order book: what rests on both sides, found by price and by member and order number, and what commands do to it.
#![tactic(auto)]

// the book, with its sides and places in step
mod book;
// making it, looking at it and emptying it
mod methods;
// where an order rests
mod place;
// places of orders that were filled whole
mod forget;
// one side with the places of its orders
mod sides;
// commands put through
mod put;
// why a command is not put through
mod refusal;

pub use book::Book;
pub use refusal::{ListTooShort, MOST_ENTRIES};
pub use side::LevelAt;
