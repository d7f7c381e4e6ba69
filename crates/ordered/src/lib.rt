// One ordered map for every kind of key whose order is total.
#![tactic(auto)]

// what a key is, and the two kinds
mod key;
// a key with its value
mod node;
// the steps below the map
mod row;
// the map
mod ordered_map;
// why a node is not put in
mod refusal;
// what users may rely on
mod laws;

pub use key::Key;
pub use key::order_id::OrderId;
pub use key::price::Price;
pub use laws::{laws_hold, order_ids_ascend, prices_ascend};
pub use node::Node;
pub use ordered_map::OrderedMap;
pub use refusal::InsertRefusal;
pub use row::changes::{insert, remove};
pub use row::search::search;
