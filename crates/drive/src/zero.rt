ghost use Rattle.std.specs.Prelude.{◌≡◌, ℕ, ◌<◌};
ghost use Rattle.drive.specs.Act.{Does};
ghost use Rattle.drive.specs.Medium.{medium};
ghost use Rattle.drive.specs.Zero.{zeros as block_of_zeros, zeroing_all};

use crate::drives::Drive;
use crate::limits::BLOCK_SIZE;

// Writes zeros to every block, and flushes.
pub fn zero_all<D: Drive>(drive: &mut D)
    ensures acts { Does (medium D.ReadDrive.visible D.Drive.durable) (zeroing_all (D.ReadDrive.visible drive.old).count) drive.old drive.new }
    ensures as_many { (D.ReadDrive.visible drive.new).count ≡ (D.ReadDrive.visible drive.old).count }
    ensures blank { (b : ℕ) → b < (D.ReadDrive.visible drive.old).count → (D.ReadDrive.visible drive.new).shown b ≡ block_of_zeros }
    ensures settles { (b : ℕ) → b < (D.ReadDrive.visible drive.old).count → (D.Drive.durable drive.new).settled b }
{
    let zeros = [0; BLOCK_SIZE];
    for b in 0..drive.count() {
        // never refused: the block is there, and the buffer is a block
        let _ = drive.write(b, &zeros);
    }
    drive.flush();
}
