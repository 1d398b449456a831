// Runs rule 0 of the book on standard input over a bank of trees.
#![tactic(auto)]

use arrange::{RECORDS, arrange};
use records::Slot;
use trees::{Store, Trees};

fn main(rt: HostRuntime) -> anyhow::Result<()> {
    let mut slots = [Slot::idle(Store::new()); RECORDS];
    arrange(&rt, Trees::new(&mut slots))
}
