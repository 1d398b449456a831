// The calls of a bank, each with a line on what it answered. The lines are this program's own: those of other programs have other words.
use bank::{Bank, Constraint, Effect, Refusal, Vars};
use std::io;

// The store that was made, if one was.
fn made(rt: &HostRuntime, call: &str, answer: Result<u16, Refusal>) -> io::Result<Option<u16>> {
    match answer {
        Ok(store) => println!(rt; "{call}: {store}")?,
        Err(refusal) => println!(rt; "{call}: refused {}", refusal.number())?,
    }
    Ok(answer.ok())
}

pub fn open<B: Bank>(rt: &HostRuntime, b: &mut B) -> io::Result<Option<u16>> {
    let answer = b.open();
    made(rt, "open", answer)
}

pub fn fork<B: Bank>(rt: &HostRuntime, b: &mut B, store: u16) -> io::Result<Option<u16>> {
    let answer = b.fork(store);
    made(rt, "fork", answer)
}

fn vars(rt: &HostRuntime, vars: &Vars) -> io::Result<()> {
    match vars {
        Vars::Zero => Ok(()),
        Vars::One(x) => print!(rt; " x{x}"),
        Vars::Two(x, y) => print!(rt; " x{x} x{y}"),
        Vars::Three(x, y, z) => print!(rt; " x{x} x{y} x{z}"),
    }
}

pub fn tell<B: Bank>(rt: &HostRuntime, b: &mut B, store: u16, c: &Constraint) -> io::Result<()> {
    print!(rt; "tell {store}: code {} k {}", c.code, c.k)?;
    vars(rt, &c.vars)?;
    match b.tell(store, c) {
        Ok(Effect::Kept) => println!(rt; ": kept"),
        Ok(Effect::Narrowed) => println!(rt; ": narrowed"),
        Err(refusal) => println!(rt; ": refused {}", refusal.number()),
    }
}

pub fn print<B: Bank>(rt: &HostRuntime, b: &B, store: u16, var: u16) -> io::Result<()> {
    let mut part = [0u8; 16];
    match b.print(store, var, &mut part) {
        Ok(n) => match std::str::from_utf8(&part[0..n]) {
            Ok(text) => println!(rt; "print {store}: x{var} is {text}"),
            Err(_) => println!(rt; "print {store}: x{var} is no text"),
        },
        Err(refusal) => println!(rt; "print {store}: x{var} refused {}", refusal.number()),
    }
}

pub fn release<B: Bank>(rt: &HostRuntime, b: &mut B, store: u16) -> io::Result<()> {
    match b.release(store) {
        Ok(()) => println!(rt; "release {store}: done"),
        Err(refusal) => println!(rt; "release {store}: refused {}", refusal.number()),
    }
}
