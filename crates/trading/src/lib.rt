// A day of messages traded under a policy, as a table. No contract can say what a program prints: the gate compares it with what a second
// implementation printed.
#![tactic(auto)]

// rows of tables, and totals in words
mod entries;

use crate::entries::{ENTRY_HEADER, EntryRow, LEVEL_HEADER, Totals};
use allocation::Policy;
use book::{Book, LevelAt, MOST_ENTRIES};
use console::Feed;
use fix::Side;
use market::Entry;
use std::io::Read;

/// Reads messages, back to back, from standard input, puts each through a book, and prints the entries, the closing book and the totals.
pub fn trade<P: Policy>(rt: &HostRuntime, policy: &P) -> anyhow::Result<()> {
    let mut bytes = Vec::new(rt.alloc());
    rt.stdin().read_to_end(&mut bytes)?;
    let mut book = Book::new(rt.alloc())?;
    let totals = trade_all(rt, policy, &mut book, &bytes)?;
    println!(rt; "\n{LEVEL_HEADER}")?;
    print_side(rt, &book, Side::Buy)?;
    print_side(rt, &book, Side::Sell)?;
    let resting = book.len();
    println!(rt; "\n{totals}\t{resting} orders rest")?;
    Ok(())
}

/// Puts each message through the book, prints its entries, and counts them. A refused message ends the run.
fn trade_all<P: Policy>(
    rt: &HostRuntime,
    policy: &P,
    book: &mut Book,
    bytes: &[u8],
) -> anyhow::Result<Totals> {
    let mut list = vec![in rt.alloc(); Entry::BLANK; MOST_ENTRIES]?;
    let mut totals = Totals::default();
    println!(rt; "{ENTRY_HEADER}")?;
    let mut feed = Feed::new(bytes);
    for message in feed.messages() {
        match message {
            Ok(command) => {
                let count = book.put_through(policy, &command, list.as_mut_slice())?;
                totals.command();
                for entry in list.iter().take(count) {
                    let row = EntryRow(*entry);
                    println!(rt; "{row}")?;
                    totals.count(entry.event);
                }
            }
            Err(stopped) => println!(rt; "{stopped}")?,
        }
    }
    Ok(totals)
}

fn print_side(rt: &HostRuntime, book: &Book, side: Side) -> anyhow::Result<()> {
    let number = side.number();
    for level in (0..book.levels(side)).filter_map(|place| book.level_at(side, place)) {
        let LevelAt { price, queue, lots } = level;
        let orders = queue.len();
        println!(rt; "{number}\t{price}\t{orders}\t{lots}")?;
    }
    Ok(())
}
