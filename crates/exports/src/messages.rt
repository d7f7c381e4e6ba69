ghost use Rattle.std.specs.Prelude.{◌≡◌, length, sum};
ghost use Rattle.fix.specs.Command.{figures};
ghost use Rattle.fix.specs.Message.{parse, values_of};
ghost use Rattle.fix.specs.Refusal.{tested_order};
ghost use Rattle.exports.specs.Code.{code};
ghost use Rattle.exports.specs.Message.{place as place_of, digest, side_of, order_of, text_of, written_length, written_into};

use fix::{Command, MessageRefusal, NewOrder, Side, read, write};

/// Reads a message: 0, or the number of the refusal.
#[unsafe(no_mangle)]
pub extern "C" fn lezdamir_refusal(bytes: &[u8]) -> u32
    ensures value { result ≡ code (parse bytes.now) }
{
    read(bytes).err().map_or(0, MessageRefusal::number)
}

/// Reads a message: the place of its refusal, 0 where that has none.
#[unsafe(no_mangle)]
pub extern "C" fn lezdamir_place(bytes: &[u8]) -> usize
    ensures value { result ≡ place_of (parse bytes.now) }
{
    read(bytes).err().map_or(0, MessageRefusal::place)
}

/// Reads a message: the sum of the kind's letter and all figures, 0 where it is refused.
#[unsafe(no_mangle)]
pub extern "C" fn lezdamir_read(bytes: &[u8]) -> u64
    ensures value { result ≡ digest (parse bytes.now) }
{
    match read(bytes) {
        Ok(command) => digest_of(&command),
        Err(_) => 0,
    }
}

fn digest_of(command: &Command) -> u64
    ensures value { result ≡ sum (values_of (figures command.now)) }
{
    match command {
        Command::New(o) => {
            b'D' as u64
                + o.member as u64
                + o.number as u64
                + o.order as u64
                + o.side.number() as u64
                + o.lots as u64
                + o.price as u64
        }
        Command::Cancel(o) => b'F' as u64 + o.member as u64 + o.number as u64 + o.order as u64,
    }
}

fn side_of(buys: bool) -> Side
    ensures value { result ≡ side_of buys }
{
    if buys { Side::Buy } else { Side::Sell }
}

/// Writes the message of an order: its length, or 0 where a figure is out of range or the buffer is too short.
#[unsafe(no_mangle)]
pub extern "C" fn lezdamir_write(
    member: u32,
    number: u32,
    order: u32,
    buys: bool,
    lots: u32,
    price: u32,
    out: &mut [u8],
) -> usize
    ensures value { result ≡ written_length (text_of (tested_order (order_of member number order buys lots price))) (length out.old) }
    ensures writes { out.new ≡ written_into (text_of (tested_order (order_of member number order buys lots price))) out.old }
{
    let side = side_of(buys);
    let o = match NewOrder::new(member, number, order, side, lots, price) {
        Ok(o) => o,
        Err(_range) => return 0,
    };
    match write(&Command::New(o), out) {
        Ok(n) => n,
        Err(_) => 0,
    }
}
