ghost use Rattle.sealed.specs.Part.{part, Handed};
ghost use Rattle.std.specs.Option.{option_map};
ghost use Rattle.std.specs.Prelude.{◌≡◌, None, MatchOption};

use crate::format::{FULL, KIND, LONGEST, PLACE};
use crate::mask::mask;
use crate::zero::is_zero;
use crc32c::checksum;

/// The payload of a sealed block: a part of the block, and its place there.
#[derive(Clone, Copy, PartialEq, Eq, Debug)]
pub struct Payload<'a> {
    pub bytes: &'a [u8],
    pub place: usize,
}

/// The payload of `block`, or nothing where it is not sealed.
pub fn check(block: &[u8]) -> Option<Payload<'_>>
    ensures whole { option_map (λ p. p.bytes.now) result ≡ part block.now }
    ensures told { MatchOption result (part block.now ≡ None) (λ p. Handed block.now p.bytes.now p.place) }
{
    let [c0, c1, c2, c3, l0, l1, kind, rest @ ..] = block else {
        return None;
    };
    if rest.len() != LONGEST {
        return None;
    }
    if *kind != FULL {
        return None;
    }
    let length = u16::from_le_bytes([*l0, *l1]) as usize;
    if length == 0 {
        return None;
    }
    if length > LONGEST {
        return None;
    }
    let stored = u32::from_le_bytes([*c0, *c1, *c2, *c3]);
    if stored != mask(checksum(&block[KIND..PLACE + length])) {
        return None;
    }
    let (bytes, tail) = rest.split_at(length);
    if !is_zero(tail) {
        return None;
    }
    Some(Payload {
        bytes,
        place: PLACE,
    })
}
