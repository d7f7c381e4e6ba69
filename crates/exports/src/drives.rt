ghost use Rattle.std.specs.Prelude.{◌≡◌, ◌<◌, ◌⊎◌, length};
ghost use Rattle.answers.specs.Answer.{if_answered};
ghost use Rattle.drive.specs.Block.{whole, block};
ghost use Rattle.drive.specs.Refusal.{tested};
ghost use Rattle.exports.specs.Code.{code};

use drive::{BLOCK_SIZE, Drive, DriveRefusal, Image, Plain, ReadDrive};
use std::alloc::Global;

// Copies block `at` of `bytes` into `buffer`: 0, or the number of the refusal.
#[unsafe(no_mangle)]
pub extern "C" fn lezdamir_read_block(bytes: &[u8], at: usize, buffer: &mut [u8]) -> u32
    ensures value { result ≡ code (tested (whole (length bytes.now)) at (length buffer.old)) }
    ensures writes { buffer.new ≡ if_answered (tested (whole (length bytes.now)) at (length buffer.old)) (block bytes.now at) buffer.old }
{
    let answer = Image::new(bytes).read(at, buffer);
    answer.err().map_or(0, DriveRefusal::number)
}

// Writes the blocks of a drive in turn, `writes` times in all; what comes back is how many were not refused.
// It is a loop with a sum, since the library's facts on `filter` are of closures that no call changes, and this one would change the drive.
fn write_in_turn<D: Drive>(drive: &mut D, writes: usize) -> usize
    requires some { 0 < (D.ReadDrive.visible drive.old).count }
    ensures value { result ≡ writes }
{
    let bytes = [7; BLOCK_SIZE];
    let count = drive.count();
    let mut answered = 0;
    for i in 0..writes {
        answered += usize::from(drive.write(i % count, &bytes).is_ok());
    }
    answered
}

// The same on a plain drive of 16 blocks, which is made here; 0 where there is no memory for it. `heap` takes no bytes, so C passes nothing for it.
#[unsafe(no_mangle)]
pub extern "C" fn lezdamir_plain_writes(heap: Global, writes: usize) -> usize
    ensures value { (result ≡ 0) ⊎ (result ≡ writes) }
{
    let Ok(memory) = vec![in heap; 0u8; 8192] else {
        return 0;
    };
    write_in_turn(&mut Plain::new(memory), writes)
}
