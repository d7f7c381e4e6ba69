/// The bytes of a block: a sector of a drive.
pub const BLOCK: usize = 512;
/// The place of the kind, from which on the checksum covers.
pub const KIND: usize = 6;
/// The place of the payload, after the checksum, the length and the kind.
pub const PLACE: usize = 7;
/// The bytes of the longest payload: what a block has after the first seven.
pub const LONGEST: usize = 505;
/// The kind of a record that stands whole in its block.
pub const FULL: u8 = 1;
