ghost use Rattle.std.specs.Prelude.{◌≡◌, ◌+◌, ◌<◌, [], length, ◌==◌};
ghost use Rattle.std.specs.List.{position};
ghost use Rattle.drive.specs.HeldBack.{most_held, held_visible, held_medium, last_put_out, all_put_out, Holds, PutOut};
ghost use Rattle.drive.specs.Medium.{Written};

use crate::blocks::{blocks, copy_in};
use crate::drives::held_back::{HeldBack, HeldBlock};
use crate::limits::BLOCK_SIZE;

impl HeldBack {
    // The place of block `at` among those that are held.
    fn place_of(&self, at: usize) -> Option<usize>
        ensures value { result ≡ position (λ h. h.number == at) self.now.held.items }
    {
        self.held.iter().position(|block| block.number == at)
    }

    // The newest bytes of block `at`: those that are held, or else those in the memory.
    pub(super) fn newest(&self, at: usize) -> &[u8; BLOCK_SIZE]
        requires below { at < (held_visible self.now).count }
        ensures value { result.now ≡ (held_visible self.now).shown at }
    {
        match self.place_of(at) {
            Some(i) => &self.held[i].bytes,
            None => &blocks(self.memory.as_slice())[at],
        }
    }

    // Puts out the block that came last.
    fn put_last_out(&mut self)
        requires some { 0 < length self.old.held.items }
        ensures held { length self.new.held.items + 1 ≡ length self.old.held.items }
        ensures memory { self.new.memory.items ≡ last_put_out self.old }
        ensures out { PutOut self.old self.new }
    {
        // read where it lies: a block that is popped first is copied once more
        let last = self.held.len() - 1;
        let number = self.held[last].number;
        copy_in(self.memory.as_mut_slice(), number, &self.held[last].bytes);
        self.held.pop();
    }

    // Puts out the block that came last, if there is room for no other.
    fn make_room(&mut self)
        ensures room { length self.new.held.items < most_held }
        ensures free { length self.old.held.items < most_held → self.new ≡ self.old }
        ensures full { length self.old.held.items ≡ most_held → (length self.new.held.items + 1 ≡ most_held) × (self.new.memory.items ≡ last_put_out self.old) }
        ensures out { PutOut self.old self.new }
    {
        if self.held.is_full() {
            self.put_last_out();
        }
    }

    // Holds the bytes of block `at`, which are the only ones of it that are held then.
    pub(super) fn hold(&mut self, at: usize, bytes: &[u8; BLOCK_SIZE])
        requires below { at < (held_visible self.old).count }
        ensures writes { Written (held_medium self.old) at bytes.now (held_medium self.new) }
        ensures holds { Holds self.old at self.new }
    {
        match self.place_of(at) {
            Some(i) => self.held[i].bytes = *bytes,
            None => {
                self.make_room();
                self.held.push(HeldBlock {
                    number: at,
                    bytes: *bytes,
                });
            }
        }
    }

    // Puts every held block out.
    pub(super) fn put_all_out(&mut self)
        ensures none { self.new.held.items ≡ [] }
        ensures memory { self.new.memory.items ≡ all_put_out self.old }
        ensures out { PutOut self.old self.new }
    {
        while !self.held.is_empty() {
            self.put_last_out();
        }
    }
}
