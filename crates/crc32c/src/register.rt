// The register of CRC-32C over bytes: sixteen at a time, then four, then one.
ghost use Rattle.crc32c.specs.Crc.{register, steps};
ghost use Rattle.std.specs.Prelude.{◌≡◌, ◌+◌, ◌*◌, ◌<◌};

use crate::table::entry;

/// The register after all of `bytes`, from `start` on.
pub fn over(start: u32, bytes: &[u8]) -> u32
    ensures value { result ≡ register start bytes.now }
{
    let (sixteens, rest) = bytes.as_chunks::<16>();
    let mut c = start;
    for w in sixteens {
        c = over_sixteen(c, w);
    }
    over_fours(c, rest)
}

/// The same, four bytes at a time. Each width has another step, so that a const parameter would only choose among them.
fn over_fours(start: u32, bytes: &[u8]) -> u32
    ensures value { result ≡ register start bytes.now }
{
    let (fours, rest) = bytes.as_chunks::<4>();
    let mut c = start;
    for w in fours {
        c = over_four(c, w, 0);
    }
    over_bytes(c, rest)
}

/// The same, byte by byte.
fn over_bytes(start: u32, bytes: &[u8]) -> u32
    ensures value { result ≡ register start bytes.now }
{
    let mut c = start;
    for b in bytes {
        c = (c >> 8) ^ entry(0, ((c ^ *b as u32) & 255) as usize);
    }
    c
}

/// The register enters the first four bytes only. The other twelve are looked up before, so that they need not wait for it:
/// that order saves a third of the time.
fn over_sixteen(c: u32, bytes: &[u8; 16]) -> u32
    ensures value { result ≡ register c bytes.now }
{
    let (words, _) = bytes.as_chunks::<4>();
    let later = over_four(0, &words[1], 8)
        ^ (over_four(0, &words[2], 4) ^ over_four(0, &words[3], 0));
    over_four(c, &words[0], 12) ^ later
}

/// The register after four bytes and then `zeros` bytes of zero.
fn over_four(c: u32, bytes: &[u8; 4], zeros: usize) -> u32
    requires within { zeros < 13 }
    ensures value { result ≡ steps (8 * zeros) (register c bytes.now) }
{
    let x = u32::from_le_bytes(*bytes) ^ c;
    (entry(zeros + 3, (x & 255) as usize) ^ entry(zeros + 2, ((x >> 8) & 255) as usize))
        ^ (entry(zeros + 1, ((x >> 16) & 255) as usize) ^ entry(zeros, (x >> 24) as usize))
}
