// Runs the books that it lists, from the folder that it is started in, each over the bank that the book is for, and prints what the arranger
// of that bank prints.
#![tactic(auto)]

use arrange::{RECORDS, arrange_text};
use records::Slot;
use semitones::{Record, Semitones};
use std::fs;
use trees::{Store, Trees};

// The bank that a book is for.
#[derive(Clone, Copy)]
enum Over {
    Semitones,
    Trees,
}

const BOOKS: [(&str, Over); 20] = [
    ("append.book", Over::Trees),
    ("canon.book", Over::Semitones),
    ("changes.book", Over::Trees),
    ("chord.book", Over::Semitones),
    ("clash.book", Over::Semitones),
    ("crowd.book", Over::Trees),
    ("doubles.book", Over::Trees),
    ("echo.book", Over::Trees),
    ("echo_late.book", Over::Trees),
    ("endless.book", Over::Trees),
    ("melody.book", Over::Trees),
    ("member.book", Over::Trees),
    ("palindrome.book", Over::Trees),
    ("prelude.book", Over::Trees),
    ("refrain.book", Over::Trees),
    ("reverse.book", Over::Trees),
    ("scale.book", Over::Semitones),
    ("steps.book", Over::Semitones),
    ("sums.book", Over::Trees),
    ("waits.book", Over::Semitones),
];

// As the programs arrange_trees and arrange_semitones do it: a crate between them for these two lines would be longer.
fn run_over_trees(rt: &HostRuntime, text: &[u8]) -> anyhow::Result<()> {
    let mut slots = [Slot::idle(Store::new()); RECORDS];
    arrange_text(rt, Trees::new(&mut slots), text)
}

fn run_over_semitones(rt: &HostRuntime, text: &[u8]) -> anyhow::Result<()> {
    let mut slots = [Slot::idle(Record::new()); RECORDS];
    arrange_text(rt, Semitones::new(&mut slots), text)
}

fn main(rt: HostRuntime) -> anyhow::Result<()> {
    for (name, over) in BOOKS {
        let text = fs::read(&rt, name)?;
        match over {
            Over::Trees => {
                println!(rt; "{name},trees")?;
                run_over_trees(&rt, &text)?;
            }
            Over::Semitones => {
                println!(rt; "{name},semitones")?;
                run_over_semitones(&rt, &text)?;
            }
        }
    }
    // A book that the list lacks is seen by this number.
    let files = fs::read_dir(&rt, ".")?.count();
    println!(rt; "{files} books")?;
    Ok(())
}
