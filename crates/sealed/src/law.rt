ghost use Rattle.sealed.specs.Law.{ReadsBack, IsSealing, HasSize, IsBlock, ZerosUnsealed, ChangeSeen};

/// The laws of sealing and reading, over every payload and every block.
pub fn sealing_laws_hold()
    ensures reads_back { ReadsBack }
    ensures is_sealing { IsSealing }
    ensures has_size { HasSize }
    ensures is_block { IsBlock }
    ensures zeros_unsealed { ZerosUnsealed }
    ensures change_seen { ChangeSeen }
{}
