// Trades a day of messages, first in, first out: entries, closing book and totals.
#![tactic(auto)]

use allocation::Fifo;

fn main(rt: HostRuntime) -> anyhow::Result<()> {
    trading::trade(&rt, &Fifo)
}
