// The tests of the ordered maps, in a crate of their own, so that the maps are not proved twice.
#![tactic(auto)]

// both maps beside a plain table
#[cfg(test)]
mod tests;
