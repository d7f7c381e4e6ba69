ghost use Rattle.std.specs.Prelude.{◌≡◌, [], length, MatchResult};
ghost use Rattle.drive.specs.HeldBack.{held_visible, held_durable, held_medium, all_put_out, Holds};
ghost use Rattle.drive.specs.Medium.{Written, Flushed};
ghost use Rattle.drive.specs.Refusal.{answer, tested};
ghost use Rattle.drive.specs.Size.{held_sized};
ghost use Rattle.drive.specs.Held.{held_sound};

use crate::blocks::{blocks, test};
use crate::drives::held_back::HeldBack;
use crate::drives::{Drive, ReadDrive};
use crate::refusal::DriveRefusal;

impl ReadDrive for HeldBack {
    ghost visible = { held_visible };

    fn count(&self) -> usize {
        blocks(self.memory.as_slice()).len()
    }

    fn read(&self, at: usize, buffer: &mut [u8]) -> Result<(), DriveRefusal> {
        test(self.count(), at, buffer)?;
        buffer.copy_from_slice(self.newest(at));
        Ok(())
    }

    ghost sized = { held_sized };
}

impl Drive for HeldBack {
    ghost durable = { held_durable };

    ghost sound = { λ d. held_sound d };

    fn write(&mut self, at: usize, bytes: &[u8]) -> Result<(), DriveRefusal>
        ensures answers { answer result ≡ tested (held_visible self.old).count at (length bytes.now) }
        ensures writes { MatchResult result (λ _. Written (held_medium self.old) at bytes.now (held_medium self.new)) (λ _. self.new ≡ self.old) }
        ensures holds { MatchResult result (λ _. Holds self.old at self.new) (λ _. self.new ≡ self.old) }
    {
        let bytes = test(self.count(), at, bytes)?;
        self.hold(at, bytes);
        Ok(())
    }

    fn flush(&mut self)
        ensures flushes { Flushed (held_medium self.old) (held_medium self.new) }
        ensures none { self.new.held.items ≡ [] }
        ensures memory { self.new.memory.items ≡ all_put_out self.old }
    {
        self.put_all_out();
    }
}
