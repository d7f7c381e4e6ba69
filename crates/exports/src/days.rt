// A day of commands put through a book, answered as a sum that the same work in another language can be held to. A command is six numbers:
// what it is (0 a cancel, 1 a buy, 2 a sell), member, number, order, lots and price.
use allocation::{Fifo, Policy, ProRata};
use book::{Book, MOST_ENTRIES};
use fix::{Cancel, Command, NewOrder, Side};
use market::Entry;
use std::alloc::Global;

/// The answer where memory is wanting, or a figure is out of range.
const FAILED: u64 = u64::MAX;

fn command(six: &[u32]) -> Option<Command> {
    let [what, member, number, id, lots, price] = *six else {
        return None;
    };
    let side = match what {
        0 => return Cancel::new(member, number, id).ok().map(Command::Cancel),
        1 => Side::Buy,
        2 => Side::Sell,
        _ => return None,
    };
    NewOrder::new(member, number, id, side, lots, price)
        .ok()
        .map(Command::New)
}

/// The nine figures of an entry, each times a weight of its own. Written out: over an array with its weights a command of a day took 40 ns more of 285.
fn weighed(entry: &Entry) -> u64 {
    let e = entry.figures();
    let mut sum = u64::from(e.command);
    sum = sum.wrapping_add(u64::from(e.member).wrapping_mul(3));
    sum = sum.wrapping_add(u64::from(e.order).wrapping_mul(5));
    sum = sum.wrapping_add(u64::from(e.side).wrapping_mul(7));
    sum = sum.wrapping_add(u64::from(e.kind).wrapping_mul(11));
    sum = sum.wrapping_add(u64::from(e.lots).wrapping_mul(13));
    sum = sum.wrapping_add(u64::from(e.price).wrapping_mul(17));
    sum = sum.wrapping_add(u64::from(e.leaves).wrapping_mul(19));
    sum.wrapping_add(u64::from(e.reason).wrapping_mul(23))
}

/// The sum of the entries of all commands; none where memory is wanting, or a figure is out of range.
fn trade<P: Policy>(heap: Global, policy: &P, commands: &[u32]) -> Option<u64> {
    let mut book = Book::new(heap).ok()?;
    let mut list = vec![in heap; Entry::BLANK; MOST_ENTRIES].ok()?;
    let mut sum: u64 = 0;
    for six in commands.chunks(6) {
        let command = command(six)?;
        let count = book
            .put_through(policy, &command, list.as_mut_slice())
            .ok()?;
        for entry in list.iter().take(count) {
            sum = sum.wrapping_add(weighed(entry));
        }
    }
    Some(sum)
}

#[unsafe(no_mangle)]
pub extern "C" fn lezdamir_book_fifo(heap: Global, commands: &[u32]) -> u64 {
    trade(heap, &Fifo, commands).unwrap_or(FAILED)
}

#[unsafe(no_mangle)]
pub extern "C" fn lezdamir_book_pro_rata(heap: Global, commands: &[u32]) -> u64 {
    trade(heap, &ProRata, commands).unwrap_or(FAILED)
}
