ghost use Rattle.std.specs.Prelude.{◌≡◌};
ghost use Rattle.allocation.specs.Refusal.{number_of};

/// Why a policy refused to split; the fills are then as they were.
#[derive(Clone, Copy, PartialEq, Eq, Debug)]
pub enum AllocationRefusal {
    /// there are more lots than fills, or fewer
    LengthsDiffer = 51,
    /// there are too many orders, or the quantity or the lots of one are 0 or too large
    OutOfRange = 52,
}

impl AllocationRefusal {
    /// The number by which reports name it.
    pub fn number(self) -> u32
        ensures value { result ≡ number_of self }
    {
        self as u32
    }
}
