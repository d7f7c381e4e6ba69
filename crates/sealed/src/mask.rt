ghost use Rattle.sealed.specs.Mask.{masked};
ghost use Rattle.std.specs.Prelude.{◌≡◌};

/// What LevelDB adds to a rotated checksum.
const DELTA: u32 = 0xA282_EAD8;

/// The checksum `sum` as a block stores it.
pub fn mask(sum: u32) -> u32
    ensures value { result ≡ masked sum }
{
    sum.rotate_right(15).wrapping_add(DELTA)
}
