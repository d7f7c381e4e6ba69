ghost use Rattle.answers.specs.Answer.{if_answered};
ghost use Rattle.sealed.specs.Number.{low_bytes};
ghost use Rattle.sealed.specs.Refusal.{number_of, answer, tested, Told};
ghost use Rattle.sealed.specs.Sealing.{sealing};
ghost use Rattle.std.specs.Prelude.{◌≡◌, ◌-◌, ◌≤◌, ◌∷◌, ◌++◌, length, drop, replicate};

use crate::format::{BLOCK, FULL, KIND, LONGEST, PLACE};
use crate::mask::mask;
use crc32c::checksum;

/// Why a payload is not sealed.
#[derive(Clone, Copy, PartialEq, Eq, Debug)]
pub enum SealRefusal {
    /// A payload has 1 to 505 bytes, and this one has `length`.
    PayloadLength { length: usize },
}

impl SealRefusal {
    /// The number by which reports name it.
    pub fn number(self) -> u32
        ensures value { result ≡ number_of self }
    {
        // by cases, since they hold figures
        match self {
            SealRefusal::PayloadLength { .. } => 92,
        }
    }
}

/// Makes `block` the sealed block of `payload`; a refusal leaves it as it was.
pub fn seal(payload: &[u8], block: &mut [u8; BLOCK]) -> Result<(), SealRefusal>
    ensures whole { answer result ≡ tested payload.now }
    ensures block { block.new ≡ if_answered (tested payload.now) (sealing payload.now) block.old }
    ensures told { Told payload.now block.old result block.new }
{
    let length = payload.len();
    if length == 0 || length > LONGEST {
        return Err(SealRefusal::PayloadLength { length });
    }
    put_record(payload, block);
    let stored = mask(checksum(&block[KIND..PLACE + length]));
    put_header(stored, length as u16, block);
    Ok(())
}

/// Writes the kind, the payload and the zeros after it; the header stays to be written.
fn put_record(payload: &[u8], block: &mut [u8; BLOCK])
    requires short { length payload.now ≤ 505 }
    ensures after { block.new ≡ replicate 6 0 ++ (1 ∷ (payload.now ++ replicate (505 - length payload.now) 0)) }
{
    *block = [0; BLOCK];
    block[KIND] = FULL;
    block[PLACE..PLACE + payload.len()].copy_from_slice(payload);
}

/// Writes the checksum as it is stored and the length.
fn put_header(stored: u32, length: u16, block: &mut [u8; BLOCK])
    ensures after { block.new ≡ low_bytes 4 stored ++ (low_bytes 2 length ++ drop 6 block.old) }
{
    block[0..4].copy_from_slice(&stored.to_le_bytes());
    block[4..6].copy_from_slice(&length.to_le_bytes());
}
