ghost use Rattle.std.specs.Prelude.{◌≡◌, ℕ, ◌<◌, length, MatchResult};
ghost use Rattle.answers.specs.Answer.{if_answered};
ghost use Rattle.drive.specs.Medium.{Visible, Durable, Sized, Sound, medium, Written, Flushed};
ghost use Rattle.drive.specs.Refusal.{answer, tested};

use crate::refusal::DriveRefusal;

// writes kept aside until a flush
pub mod held_back;
// bytes that are lent, and only read
pub mod image;
// each write straight onto memory
pub mod plain;

// What can be read: blocks of 512 bytes, numbered from 0.
pub trait ReadDrive {
    // How many blocks there are, and the bytes of each.
    ghost visible: { Self → Visible };

    fn count(&self) -> usize
        ensures value { result ≡ (visible self.now).count };

    // Copies block `at` into `buffer`. Each drive counts and reads for itself, since one that is no memory has no block to lend to the trait.
    fn read(&self, at: usize, buffer: &mut [u8]) -> Result<(), DriveRefusal>
        ensures answers { answer result ≡ tested (visible self.now).count at (length buffer.old) }
        ensures copies { buffer.new ≡ if_answered (tested (visible self.now).count at (length buffer.old)) ((visible self.now).shown at) buffer.old };

    // Every block has 512 bytes.
    ghost sized: { (d : Self) → Sized (visible d) };
}

// What can be written too, with what a power cut may leave of it.
pub trait Drive: ReadDrive {
    // Which contents may stand in each block after a power cut, and which blocks are settled.
    ghost durable: { Self → Durable };

    // Writes `bytes` to block `at`.
    fn write(&mut self, at: usize, bytes: &[u8]) -> Result<(), DriveRefusal>
        ensures answers { answer result ≡ tested (Self.ReadDrive.visible self.old).count at (length bytes.now) }
        ensures writes { MatchResult result (λ _. Written (medium Self.ReadDrive.visible durable self.old) at bytes.now (medium Self.ReadDrive.visible durable self.new)) (λ _. self.new ≡ self.old) };

    // Settles every block. It is never refused.
    fn flush(&mut self)
        ensures flushes { Flushed (medium Self.ReadDrive.visible durable self.old) (medium Self.ReadDrive.visible durable self.new) };

    // What is shown may stand, and where a block is settled nothing else may.
    ghost sound: { (d : Self) → Sound (medium Self.ReadDrive.visible durable d) };
}
