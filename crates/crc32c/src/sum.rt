ghost use Rattle.crc32c.specs.Crc.{crc};
ghost use Rattle.std.specs.Prelude.{◌≡◌};

use crate::register::over;

/// The register's start, and what complements it at the end.
const ONES: u32 = 0xFFFF_FFFF;

/// The CRC-32C of `bytes`.
pub fn checksum(bytes: &[u8]) -> u32
    ensures value { result ≡ crc bytes.now }
{
    over(ONES, bytes) ^ ONES
}
