// A price level: the orders that rest at one price, and what a trade makes of them.
#![tactic(auto)]

// the level, with the lots of its queue together
mod level;
// an order that joins, leaves or is found
mod queue;
// why a level is left as it was
mod refusal;
// room to split a quantity
mod scratch;
// the policy's fills, told and taken off
mod trade;

pub use allocation::MOST_ORDERS;
pub use level::Level;
pub use refusal::{AddRefusal, TradeRefusal};
pub use scratch::Scratch;
pub use trade::Progress;
