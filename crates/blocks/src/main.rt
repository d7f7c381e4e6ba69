// What is on this drive? Reads a journal's image from standard input, and says of each block what it is.
#![tactic(auto)]

use console::Feed;
use fix::MessageRefusal;
use sealed::{BLOCK, check, is_zero};
use std::io::Read;

// What was seen so far. Zero blocks in a row are shown as one row, once the run is over.
#[derive(Default, Drop)]
struct Seen {
    sealed: usize,
    zero: usize,
    neither: usize,
    // the first block of a run of zero blocks that goes on
    zero_from: Option<usize>,
}

fn main(rt: HostRuntime) -> anyhow::Result<()> {
    list(&rt)
}

fn list(rt: &HostRuntime) -> anyhow::Result<()> {
    let mut bytes = Vec::new(rt.alloc());
    rt.stdin().read_to_end(&mut bytes)?;
    println!(rt; "block\tis\tpayload\tmessages\trefused")?;
    let mut seen = Seen::default();
    for (at, block) in bytes.chunks_exact(BLOCK).enumerate() {
        show(rt, &mut seen, at, block)?;
    }
    let count = bytes.len() / BLOCK;
    end_zeros(rt, &mut seen, count)?;
    let sealed = seen.sealed;
    let zero = seen.zero;
    let neither = seen.neither;
    let over = bytes.len() % BLOCK;
    println!(rt;
        "total\t{count} blocks\t{sealed} sealed\t{zero} zero\t{neither} neither\t{over} bytes over"
    )?;
    Ok(())
}

fn show(rt: &HostRuntime, seen: &mut Seen, at: usize, block: &[u8]) -> anyhow::Result<()> {
    if is_zero(block) {
        seen.zero = seen.zero.saturating_add(1);
        seen.zero_from = seen.zero_from.or(Some(at));
        return Ok(());
    }
    end_zeros(rt, seen, at)?;
    let Some(payload) = check(block) else {
        println!(rt; "{at}\tneither\t-\t-\t-")?;
        seen.neither = seen.neither.saturating_add(1);
        return Ok(());
    };
    let size = payload.bytes.len();
    let (messages, refused) = count_messages(payload.bytes);
    match refused {
        None => println!(rt; "{at}\tsealed\t{size}\t{messages}\t-")?,
        Some(why) => {
            let number = why.number();
            println!(rt; "{at}\tsealed\t{size}\t{messages}\t{number}")?;
        }
    }
    seen.sealed = seen.sealed.saturating_add(1);
    Ok(())
}

// Shows the run of zero blocks that ends before block `end`, if there is one.
fn end_zeros(rt: &HostRuntime, seen: &mut Seen, end: usize) -> anyhow::Result<()> {
    let Some(from) = seen.zero_from.take() else {
        return Ok(());
    };
    let last = end.saturating_sub(1);
    if from == last {
        println!(rt; "{from}\tzero\t-\t-\t-")?;
    } else {
        println!(rt; "{from}-{last}\tzero\t-\t-\t-")?;
    }
    Ok(())
}

// How many messages stand in a payload from its start on, and the refusal where they stop before its end.
fn count_messages(payload: &[u8]) -> (usize, Option<MessageRefusal>) {
    let mut feed = Feed::new(payload);
    let stopped = feed.messages().find_map(|message| message.err());
    (feed.taken(), stopped.map(|stopped| stopped.why))
}
