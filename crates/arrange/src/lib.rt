// Runs rule 0 of a book over any bank, and prints its answers as they come.
#![tactic(auto)]

use anyhow::anyhow;
use bank::Bank;
use book::Book;
use search::{Outcome, Search};
use std::io::{self, Read, Write};

// One byte more than a book may have, so that a longer text is seen to be too long.
const MOST: u64 = 65_537;

// How many steps are spent on a book in all.
const STEPS: u32 = 10_000;

// How many records a program lends its bank.
pub const RECORDS: usize = 24;

// Why nothing more is printed of a book: a refusal, by its number, or a failure of the program.
enum Ended {
    Refused(u8),
    Failed(anyhow::Error),
}

impl From<search::Refusal> for Ended {
    fn from(e: search::Refusal) -> Ended {
        Ended::Refused(e.number())
    }
}

impl From<book::Refusal> for Ended {
    fn from(e: book::Refusal) -> Ended {
        Ended::Refused(e.cause.number())
    }
}

impl From<io::Error> for Ended {
    fn from(e: io::Error) -> Ended {
        Ended::Failed(anyhow::Error::from(e))
    }
}

// The step of an answer, a comma and its line.
fn print_answer(rt: &HostRuntime, step: u32, line: &[u8]) -> io::Result<()> {
    print!(rt; "{step},")?;
    rt.stdout().write_all(line)?;
    println!(rt; "")
}

// Writes the answer that waits, prints it and lets it go.
fn hand_out<B: Bank>(rt: &HostRuntime, search: &mut Search<B>, step: u32) -> Result<(), Ended> {
    let mut line = [0u8; 1024];
    let len = search.write(&mut line)?;
    print_answer(rt, step, &line[0..len])?;
    Ok(search.take()?)
}

// All answers within the steps, and then why there are no more.
fn print_answers<B: Bank>(rt: &HostRuntime, search: &mut Search<B>) -> Result<(), Ended> {
    let mut left = STEPS;
    // Each answer takes a step, so there is one turn more than steps at most.
    for _ in 0..=STEPS {
        let ran = search.run(left)?;
        let total = ran.total;
        match ran.outcome {
            Outcome::Answer(_) => hand_out(rt, search, total)?,
            Outcome::Exhausted => return Ok(println!(rt; "exhausted,{total}")?),
            Outcome::Spent => return Ok(println!(rt; "spent,{total}")?),
        }
        left = left.saturating_sub(ran.steps);
    }
    Ok(())
}

// Reads a book, poses its rule 0 and prints what comes of it.
fn print_book<B: Bank + Drop>(rt: &HostRuntime, bank: B, text: &[u8]) -> Result<(), Ended> {
    let mut book = Book::empty();
    book.read(text)?;
    let Ok(mut search) = Search::new(rt.alloc(), bank) else {
        return Err(Ended::Failed(anyhow!("no memory for a search")));
    };
    search.pose(&book, 0)?;
    print_answers(rt, &mut search)
}

// Runs rule 0 of the book that the text is over the bank.
pub fn arrange_text<B: Bank + Drop>(rt: &HostRuntime, bank: B, text: &[u8]) -> anyhow::Result<()> {
    match print_book(rt, bank, text) {
        Ok(()) => Ok(()),
        Err(Ended::Refused(number)) => Ok(println!(rt; "refused,{number}")?),
        Err(Ended::Failed(e)) => Err(e),
    }
}

// The same with the text on standard input.
pub fn arrange<B: Bank + Drop>(rt: &HostRuntime, bank: B) -> anyhow::Result<()> {
    let mut text = Vec::new(rt.alloc());
    rt.stdin().take(MOST).read_to_end(&mut text)?;
    arrange_text(rt, bank, &text)
}
