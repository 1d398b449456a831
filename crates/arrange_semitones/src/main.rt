// Runs rule 0 of the book on standard input over a bank of semitones.
#![tactic(auto)]

use arrange::{RECORDS, arrange};
use records::Slot;
use semitones::{Record, Semitones};

fn main(rt: HostRuntime) -> anyhow::Result<()> {
    let mut slots = [Slot::idle(Record::new()); RECORDS];
    arrange(&rt, Semitones::new(&mut slots))
}
