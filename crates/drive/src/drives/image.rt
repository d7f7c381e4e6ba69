ghost use Rattle.std.specs.Prelude.{◌≡◌};
ghost use Rattle.drive.specs.Plain.{bare_visible};
ghost use Rattle.drive.specs.Size.{bare_sized};

use crate::blocks::{blocks, test};
use crate::drives::ReadDrive;
use crate::refusal::DriveRefusal;

// Bytes that stand elsewhere, to be read only.
#[derive(Clone, Copy)]
pub struct Image<'a> {
    bytes: &'a [u8],
}

impl<'a> Image<'a> {
    pub fn new(bytes: &'a [u8]) -> Self
        ensures bytes { result.bytes.now ≡ bytes.now }
    {
        Image { bytes }
    }
}

impl<'a> ReadDrive for Image<'a> {
    ghost visible = { λ d. bare_visible d.bytes.now };

    fn count(&self) -> usize {
        blocks(self.bytes).len()
    }

    fn read(&self, at: usize, buffer: &mut [u8]) -> Result<(), DriveRefusal> {
        test(self.count(), at, buffer)?;
        buffer.copy_from_slice(&blocks(self.bytes)[at]);
        Ok(())
    }

    ghost sized = { λ d. bare_sized d.bytes.now };
}
