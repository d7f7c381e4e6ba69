ghost use Rattle.std.specs.Prelude.{◌≡◌};
ghost use Rattle.drive.specs.Refusal.{number_of};

// Why a read or a write was refused; the drive and the buffer are then as they were.
#[derive(Clone, Copy, PartialEq, Eq, Debug)]
pub enum DriveRefusal {
    // the drive has no block of that number
    NoSuchBlock = 41,
    // the buffer is longer or shorter than a block
    WrongBuffer = 42,
}

impl DriveRefusal {
    // The number by which reports name it.
    pub fn number(self) -> u32
        ensures value { result ≡ number_of self }
    {
        self as u32
    }
}
