// Functions for callers in C and Rust, which benchmarks and comparisons link. A slice passes as a pointer and then a length.
// They answer numbers, 0 for none or for no refusal: C has no `Option` and no `Result`, and no generic function, so that each has a name for each kind.
#![tactic(auto)]

// the splits of the policies
mod splits;
// a day of commands put through a book
mod days;
// checksums and sealed blocks
mod blocks;
// blocks read from drives and written to them
mod drives;
// messages read and written
mod messages;
// whole workloads on the ordered maps
mod maps;
#[cfg(test)]
mod tests;
