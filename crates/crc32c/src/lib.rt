// CRC-32C (Castagnoli) of bytes, proved equal to its definition bit by bit in specs/Crc.antt.
#![tactic(auto)]

// what is known of every CRC-32C
mod law;
// the register over bytes: sixteen at a time, then four, then one
mod register;
// the checksum of bytes
mod sum;
// what each byte does to the register, looked up
mod table;

pub use law::{burst_seen_holds, check_value_holds};
pub use sum::checksum;

#[cfg(test)]
mod tests;
