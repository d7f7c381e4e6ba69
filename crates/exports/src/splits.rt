ghost use Rattle.std.specs.Prelude.{◌≡◌, length};
ghost use Rattle.answers.specs.Answer.{if_answered};
ghost use Rattle.allocation.specs.Range.{tested};
ghost use Rattle.allocation.specs.Fifo.{fifo};
ghost use Rattle.allocation.specs.ProRata.{pro_rata};
ghost use Rattle.exports.specs.Code.{code};

use allocation::{AllocationRefusal, Fifo, Policy, ProRata};

/// 0, or the number of the refusal.
fn split<P: Policy>(policy: &P, quantity: u32, lots: &[u32], fills: &mut [u32]) -> u32
    ensures value { result ≡ code (tested quantity lots.now (length fills.old)) }
    ensures writes { fills.new ≡ if_answered (tested quantity lots.now (length fills.old)) (P.Policy.split policy.now quantity lots.now) fills.old }
{
    let answer = policy.allocate(quantity, lots, fills);
    answer.err().map_or(0, AllocationRefusal::number)
}

#[unsafe(no_mangle)]
pub extern "C" fn lezdamir_fifo(quantity: u32, lots: &[u32], fills: &mut [u32]) -> u32
    ensures value { result ≡ code (tested quantity lots.now (length fills.old)) }
    ensures writes { fills.new ≡ if_answered (tested quantity lots.now (length fills.old)) (fifo quantity lots.now) fills.old }
{
    split(&Fifo, quantity, lots, fills)
}

#[unsafe(no_mangle)]
pub extern "C" fn lezdamir_pro_rata(quantity: u32, lots: &[u32], fills: &mut [u32]) -> u32
    ensures value { result ≡ code (tested quantity lots.now (length fills.old)) }
    ensures writes { fills.new ≡ if_answered (tested quantity lots.now (length fills.old)) (pro_rata quantity lots.now) fills.old }
{
    split(&ProRata, quantity, lots, fills)
}
