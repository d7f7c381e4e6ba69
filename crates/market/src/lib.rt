// What commands do to a market, said of plain values: the entries that tell of it, the definition `put`, and the laws above it.
#![tactic(auto)]

// what is told of an order
mod entry;
// an entry by its nine values
mod figures;
// what holds of every row of commands
mod laws;
// an order that rests
mod resting;
// the two sides
mod side;

// examples that are run
#[cfg(test)]
mod tests;

pub use entry::{Entry, Event, Reason};
pub use figures::Figures;
pub use laws::{
    commands_are_answered, entries_are_few, entries_tell_what_rests, limits_are_kept, lots_add_up,
    markets_keep_their_shape, nobody_overtakes, policies_split_queues, trades_follow_the_answer,
    worked_example_holds,
};
pub use resting::Resting;
pub use side::{is_same, other};
