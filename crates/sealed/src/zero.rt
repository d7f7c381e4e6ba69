ghost use Rattle.sealed.specs.Zero.{all_zero};
ghost use Rattle.std.specs.Prelude.{◌≡◌, length, replicate, Decides};

/// Whether all of `bytes` are zero: by words of eight, with no early end, which the compiler makes wide loads of.
pub fn is_zero(bytes: &[u8]) -> bool
    ensures value { result ≡ all_zero bytes.now }
    ensures told { Decides result (bytes.now ≡ replicate (length bytes.now) 0) }
{
    let (words, rest) = bytes.as_chunks::<8>();
    let mut any = 0u64;
    for w in words {
        any |= u64::from_le_bytes(*w);
    }
    any == 0 && rest.iter().fold(0u8, |any, b| any | *b) == 0
}
