// The steps below the map, over nodes that their caller lends.

// where a key stands
pub mod search;
// a node put in or taken out
pub mod changes;
