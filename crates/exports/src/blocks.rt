ghost use Rattle.answers.specs.Answer.{if_answered};
ghost use Rattle.crc32c.specs.Crc.{crc};
ghost use Rattle.exports.specs.Code.{code, length_or_0};
ghost use Rattle.sealed.specs.Part.{part};
ghost use Rattle.sealed.specs.Refusal.{tested};
ghost use Rattle.sealed.specs.Sealing.{sealing};
ghost use Rattle.sealed.specs.Zero.{all_zero};
ghost use Rattle.std.specs.Prelude.{◌≡◌};

use sealed::SealRefusal;

#[unsafe(no_mangle)]
pub extern "C" fn lezdamir_crc32c(bytes: &[u8]) -> u32
    ensures value { result ≡ crc bytes.now }
{
    crc32c::checksum(bytes)
}

#[unsafe(no_mangle)]
pub extern "C" fn lezdamir_is_zero(bytes: &[u8]) -> bool
    ensures value { result ≡ all_zero bytes.now }
{
    sealed::is_zero(bytes)
}

/// The length of the block's payload, 0 where the block is not sealed.
#[unsafe(no_mangle)]
pub extern "C" fn lezdamir_check(block: &[u8]) -> usize
    ensures value { result ≡ length_or_0 (part block.now) }
{
    match sealed::check(block) {
        Some(payload) => payload.bytes.len(),
        None => 0,
    }
}

/// 0 where the payload was sealed, else the number of the refusal.
#[unsafe(no_mangle)]
pub extern "C" fn lezdamir_seal(payload: &[u8], block: &mut [u8; 512]) -> u32
    ensures value { result ≡ code (tested payload.now) }
    ensures block { block.new ≡ if_answered (tested payload.now) (sealing payload.now) block.old }
{
    let answer = sealed::seal(payload, block);
    answer.err().map_or(0, SealRefusal::number)
}
