// What is this message? Each line of standard input is one, shown with | for the byte 1.
#![tactic(auto)]

use console::{Refused, Row};
use fix::read;
use std::io::{BufRead, BufReader};

fn main(rt: HostRuntime) -> anyhow::Result<()> {
    explain(&rt)
}

fn explain(rt: &HostRuntime) -> anyhow::Result<()> {
    for line in BufReader::new(rt.alloc(), rt.stdin())?.lines(rt.alloc()) {
        let mut bytes = line?.into_bytes();
        console::unshow(&mut bytes);
        match read(&bytes) {
            Ok(command) => {
                let row = Row(command);
                println!(rt; "{row}")?;
            }
            Err(why) => {
                let refused = Refused(why);
                println!(rt; "{refused}")?;
            }
        }
    }
    Ok(())
}
