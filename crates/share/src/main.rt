// Trades a day of messages, in proportion to the lots: entries, closing book and totals.
#![tactic(auto)]

use allocation::ProRata;

fn main(rt: HostRuntime) -> anyhow::Result<()> {
    trading::trade(&rt, &ProRata)
}
