ghost use Rattle.crc32c.specs.Crc.{crc};
ghost use Rattle.crc32c.specs.Law.{BurstSeen};
ghost use Rattle.std.specs.Prelude.{◌≡◌, codes};

/// The check value by which catalogues of checksums tell CRC-32C from others.
pub fn check_value_holds()
    ensures value { crc (codes "123456789") ≡ 0xE306_9283 }
{}

/// A change within four neighbouring bytes is always noticed.
pub fn burst_seen_holds()
    ensures seen { BurstSeen }
{}
