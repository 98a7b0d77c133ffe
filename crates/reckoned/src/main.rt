// Judges thousands of cases by the product and by a second reckoning, and prints where they differ and how many there were.
#![tactic(auto)]

mod bench;
mod cases;
mod dice;
mod draft;
mod finding;
mod outcome;
mod runs;
mod second;
mod shapes;
mod show;
mod spoil;
mod tally;

use crate::runs::Runs;

fn main(rt: HostRuntime) -> anyhow::Result<()> {
    let mut runs = Runs::new(rt, 20731)?;
    runs.sheets(50000)?;
    runs.short_takes(6000)?;
    runs.long_takes(400)?;
    runs.answers(10000)?;
    runs.texts(3000)?;
    let tally = &runs.bench.tally;
    println!(rt; "{tally}")?;
    Ok(())
}
