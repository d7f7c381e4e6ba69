// Numbers as digits.
ghost use Rattle.std.specs.Prelude.{◌≡◌, ◌≤◌, IfSome};
ghost use Rattle.fields.specs.Numeral.{numeral as numeral_of};

/// The number from `low` to `high` that the bytes spell: digits alone, with no zero in front.
pub fn numeral(bytes: &[u8], low: u32, high: u32) -> Option<u32>
    ensures value { result ≡ numeral_of low high bytes.now }
    ensures range { IfSome result (λ n. (low ≤ n) × (n ≤ high)) }
{
    if bytes.is_empty() || bytes[0] == b'0' {
        return None;
    }
    // n * 10 + 9 passes 32 bits at numbers of nine digits
    let mut n: u64 = 0;
    for b in bytes {
        if !b.is_ascii_digit() {
            return None;
        }
        n = n * 10 + (*b - b'0') as u64;
        if n > high as u64 {
            return None;
        }
    }
    if n < low as u64 { None } else { Some(n as u32) }
}
