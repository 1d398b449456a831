// Reads a rule book from standard input and says what it is, or what is wrong with it and where.
#![tactic(auto)]

use book::{Book, Refusal};
use std::io::Read;

// One byte more than a book may have, so that a longer text is seen to be too long.
const MOST: u64 = 65_537;

fn print_book(rt: &impl Print, book: &Book) -> anyhow::Result<()> {
    let rules = book.rule_count();
    let goals = book.goal_count();
    println!(rt; "book,{rules},{goals}")?;
    for r in 0..rules {
        let params = book.rule(r).params;
        let own = book.goals_of(r);
        println!(rt; "rule,{r},{params},{own}")?;
    }
    Ok(())
}

fn print_refusal(rt: &impl Print, refusal: Refusal) -> anyhow::Result<()> {
    let cause = refusal.cause;
    println!(rt; "{refusal}")?;
    println!(rt; "{cause}")?;
    Ok(())
}

fn main(rt: HostRuntime) -> anyhow::Result<()> {
    let mut text = Vec::new(rt.alloc());
    rt.stdin().take(MOST).read_to_end(&mut text)?;
    let mut book = Book::empty();
    match book.read(&text) {
        Ok(()) => print_book(&rt, &book),
        Err(refusal) => print_refusal(&rt, refusal),
    }
}
