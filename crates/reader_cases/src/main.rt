// Reads many texts, good and bad, and prints what the reader answers to each.
#![tactic(auto)]

mod large;
mod small;

use book::{Book, Form};
use large::Shape;
use small::CASES;
use std::fmt::Display;

// The answer to a text, in one line.
fn print_answer(rt: &impl Print, name: impl Display + Drop, text: &[u8]) -> anyhow::Result<()> {
    let mut book = Book::empty();
    match book.read(text) {
        Ok(()) => {
            let rules = book.rule_count();
            let goals = book.goal_count();
            println!(rt; "{name}: book,{rules},{goals}")?;
        }
        Err(refusal) => {
            let left = book.rule_count() + book.goal_count();
            println!(rt; "{name}: {refusal} left {left}")?;
        }
    }
    Ok(())
}

// From a rule to its goal, to the goals below that, and over a call to another rule: no index is checked, and no proof is written.
fn walk(book: &Book, r: usize) -> u8 {
    if r >= book.rule_count() {
        return 0;
    }
    let root = book.rule(r).goal;
    match book.form(root) {
        Form::Tell(tell) => tell
            .slots
            .as_slice()
            .first()
            .copied()
            .unwrap_or(book.scope(root)),
        Form::And { first, second } => book.scope(first).max(book.scope(second)),
        Form::Or { first, second } => match book.form(second) {
            Form::New { goal } => book.scope(goal),
            _ => book.scope(first),
        },
        Form::New { goal } => book.scope(goal),
        Form::Call(call) => {
            let callee = book.rule(call.rule as usize);
            book.scope(callee.goal)
        }
    }
}

fn print_walk(rt: &impl Print, text: &[u8]) -> anyhow::Result<()> {
    let mut book = Book::empty();
    if book.read(text).is_err() {
        return Ok(());
    }
    for r in 0..book.rule_count() {
        let scope = walk(&book, r);
        let goal = book.rule(r).goal;
        let line = book.line(goal);
        println!(rt; "walk {r}: line {line}, scope {scope}")?;
    }
    Ok(())
}

fn main(rt: HostRuntime) -> anyhow::Result<()> {
    for (name, text) in CASES {
        print_answer(&rt, name, text)?;
    }
    for shape in Shape::ALL {
        let text = shape.text(rt.alloc())?;
        print_answer(&rt, shape, &text)?;
    }
    print_walk(
        &rt,
        b"rule,2\nor\ntell,0,0,0,1\nnew\ncall,1,2\nrule,1\nand\ntell,1,7,0\ncall,0,0,0\n",
    )
}
