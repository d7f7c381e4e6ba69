ghost use Rattle.std.specs.Prelude.{◌≡◌, length, MatchResult};
ghost use Rattle.answers.specs.Answer.{if_answered};
ghost use Rattle.drive.specs.Block.{put};
ghost use Rattle.drive.specs.Medium.{Written, Flushed};
ghost use Rattle.drive.specs.Plain.{plain_visible, plain_durable, plain_medium};
ghost use Rattle.drive.specs.Refusal.{answer, tested};
ghost use Rattle.drive.specs.Size.{bare_sized};
ghost use Rattle.std.proofs.Common.{rules};

use crate::blocks::{blocks, copy_in, test};
use crate::drives::{Drive, ReadDrive};
use crate::refusal::DriveRefusal;

// Puts each write straight onto its memory.
#[derive(Drop)]
pub struct Plain {
    memory: Vec<u8>,
}

impl Plain {
    pub fn new(memory: Vec<u8>) -> Self
        ensures memory { result.memory ≡ memory }
    {
        Plain { memory }
    }

    pub fn into_memory(self) -> Vec<u8>
        ensures value { result ≡ self.memory }
    {
        let Plain { memory } = self;
        memory
    }
}

impl ReadDrive for Plain {
    ghost visible = { plain_visible };

    fn count(&self) -> usize {
        blocks(self.memory.as_slice()).len()
    }

    fn read(&self, at: usize, buffer: &mut [u8]) -> Result<(), DriveRefusal> {
        test(self.count(), at, buffer)?;
        buffer.copy_from_slice(&blocks(self.memory.as_slice())[at]);
        Ok(())
    }

    ghost sized = { λ d. bare_sized d.memory.items };
}

impl Drive for Plain {
    ghost durable = { plain_durable };

    ghost sound = { Prim.search rules };

    // It touches no byte outside the block.
    fn write(&mut self, at: usize, bytes: &[u8]) -> Result<(), DriveRefusal>
        ensures answers { answer result ≡ tested (plain_visible self.old).count at (length bytes.now) }
        ensures writes { MatchResult result (λ _. Written (plain_medium self.old) at bytes.now (plain_medium self.new)) (λ _. self.new ≡ self.old) }
        ensures memory { self.new.memory.items ≡ if_answered (tested (plain_visible self.old).count at (length bytes.now)) (put self.old.memory.items at bytes.now) self.old.memory.items }
    {
        let bytes = test(self.count(), at, bytes)?;
        copy_in(self.memory.as_mut_slice(), at, bytes);
        Ok(())
    }

    // There is nothing to do.
    fn flush(&mut self)
        ensures flushes { Flushed (plain_medium self.old) (plain_medium self.new) }
        ensures same { self.new ≡ self.old }
    {}
}
