// How an incoming order's lots are split over the orders that rest at one price. docs/POLICIES.md has the rules.
#![tactic(auto)]

// what is refused
pub mod refusal;
// the limits, and the test that every policy makes first
mod range;
// what a policy is, and the policies
pub mod policies;
// what is promised of the splits
pub mod promises;

// examples that are run
#[cfg(test)]
mod tests;

pub use policies::Policy;
pub use policies::fifo::Fifo;
pub use policies::pro_rata::ProRata;
pub use promises::{promises_hold, tests_are_as_told, worked_examples_hold};
pub use range::{MOST_LOTS, MOST_ORDERS, is_tradable};
pub use refusal::AllocationRefusal;
