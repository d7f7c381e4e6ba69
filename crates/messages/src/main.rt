// What did the gateway send? Reads messages, back to back, from standard input, and lists them.
#![tactic(auto)]

use console::{Feed, HEADER, Row};
use fix::Command;
use std::io::Read;

fn main(rt: HostRuntime) -> anyhow::Result<()> {
    list(&rt)
}

fn list(rt: &HostRuntime) -> anyhow::Result<()> {
    let mut bytes = Vec::new(rt.alloc());
    rt.stdin().read_to_end(&mut bytes)?;
    println!(rt; "{HEADER}")?;
    let mut feed = Feed::new(&bytes);
    let mut orders = 0usize;
    for message in feed.messages() {
        match message {
            Ok(command) => {
                let row = Row(command);
                println!(rt; "{row}")?;
                if let Command::New(_) = command {
                    orders = orders.saturating_add(1);
                }
            }
            Err(stopped) => println!(rt; "{stopped}")?,
        }
    }
    let messages = feed.taken();
    let cancels = messages.saturating_sub(orders);
    let place = feed.place();
    println!(rt; "total\t{messages} messages\t{orders} new\t{cancels} cancel\t{place} bytes")?;
    Ok(())
}
