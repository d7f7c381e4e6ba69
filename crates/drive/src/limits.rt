// A block: what one read or write moves.
pub const BLOCK_SIZE: usize = 512;

// The most blocks that a held-back drive keeps aside. With their numbers, some 8 KiB, they still fit on a stack.
pub const MOST_HELD: usize = 16;
