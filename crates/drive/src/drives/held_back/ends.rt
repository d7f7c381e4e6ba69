ghost use Rattle.std.specs.Prelude.{◌≡◌, ℕ, [], length};
ghost use Rattle.drive.specs.HeldBack.{held_visible, held_durable, held_medium, all_put_out};
ghost use Rattle.drive.specs.Medium.{CutAt};
ghost use Rattle.drive.specs.Plain.{bare_visible, bare};

use crate::drives::held_back::HeldBack;
use arrayvec::ArrayVec;

impl HeldBack {
    // Nothing is held at first. This is all the room that the drive ever takes.
    pub fn new(memory: Vec<u8>) -> Self
        ensures memory { result.memory ≡ memory }
        ensures none { result.held.items ≡ [] }
        ensures shows { held_visible result ≡ bare_visible memory.items }
        ensures settles { (b : ℕ) → (held_durable result).settled b }
    {
        HeldBack {
            memory,
            held: ArrayVec::new(),
        }
    }

    // How many blocks are held.
    pub fn held(&self) -> usize
        ensures value { result ≡ length self.now.held.items }
    {
        self.held.len()
    }

    // Puts every held block out, and gives the memory back.
    pub fn into_memory(mut self) -> Vec<u8>
        ensures items { result.items ≡ all_put_out self }
    {
        self.put_all_out();
        // nothing is held now, so nothing is lost
        self.power_cut()
    }

    // Drops what is held, and gives the memory back as a power cut leaves it. No block holds junk, so the cut is one of any junk.
    pub fn power_cut(self) -> Vec<u8>
        ensures value { result ≡ self.memory }
        ensures cut { CutAt (λ _. ⊥) (held_medium self) (bare result.items) }
    {
        let HeldBack { memory, held: _ } = self;
        memory
    }
}
