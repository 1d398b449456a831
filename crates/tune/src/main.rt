// Tells a bank some intervals, and prints what it answers to each call, a refusal by its number.
#![tactic(auto)]

mod calls;

use bank::{Bank, Constraint, Vars};
use calls::{fork, open, print, release, tell};
use records::Slot;
use semitones::{Cell, Record, Semitones};
use std::io;

fn says(code: u8, k: i32, vars: Vars) -> Constraint {
    Constraint { code, k, vars }
}

fn equal(x: u16, y: u16) -> Constraint {
    says(0, 0, Vars::Two(x, y))
}

fn number(x: u16, k: i32) -> Constraint {
    says(1, k, Vars::One(x))
}

fn plus(x: u16, y: u16, k: i32) -> Constraint {
    says(3, k, Vars::Two(x, y))
}

// A fifth and a fourth make an octave, and no other interval.
fn octave<B: Bank>(rt: &HostRuntime, b: &mut B, store: u16) -> io::Result<()> {
    tell(rt, b, store, &plus(1, 0, 7))?;
    tell(rt, b, store, &plus(2, 1, 5))?;
    tell(rt, b, store, &plus(2, 0, 11))?;
    tell(rt, b, store, &plus(2, 0, 12))?;
    tell(rt, b, store, &plus(3, 4, -3))?;
    tell(rt, b, store, &plus(6, 3, -4))?;
    for var in 0..7u16 {
        print(rt, b, store, var)?;
    }
    Ok(())
}

// What is told of a fork stays in the fork.
fn numbers<B: Bank>(rt: &HostRuntime, b: &mut B, store: u16) -> io::Result<()> {
    tell(rt, b, store, &number(1, -53))?;
    tell(rt, b, store, &equal(5, 2))?;
    tell(rt, b, store, &number(0, 60))?;
    tell(rt, b, store, &plus(4, 0, 1000))?;
    for var in 0..7u16 {
        print(rt, b, store, var)?;
    }
    Ok(())
}

// Constraints and variables that the bank does not know.
fn refusals<B: Bank>(rt: &HostRuntime, b: &mut B, store: u16) -> io::Result<()> {
    tell(rt, b, store, &says(2, 0, Vars::Three(0, 1, 2)))?;
    tell(rt, b, store, &says(0, 0, Vars::Zero))?;
    tell(rt, b, store, &says(1, 1, Vars::Two(0, 1)))?;
    tell(rt, b, store, &plus(0, 1, 1001))?;
    tell(rt, b, store, &plus(0, 1, -1001))?;
    tell(rt, b, store, &equal(0, 256))?;
    tell(rt, b, store, &number(256, 0))?;
    print(rt, b, store, 256)?;
    let mut short = [9u8; 2];
    match b.print(store, 1, &mut short) {
        Ok(n) => println!(rt; "print into 2 bytes: {n}")?,
        Err(refusal) => println!(rt;
            "print into 2 bytes: refused {}, left {} {}",
            refusal.number(),
            short[0],
            short[1]
        )?,
    }
    Ok(())
}

// What is asked of a store that has ended is refused.
fn ended<B: Bank>(rt: &HostRuntime, b: &mut B, store: u16) -> io::Result<()> {
    release(rt, b, store)?;
    release(rt, b, store)?;
    tell(rt, b, store, &equal(0, 1))?;
    print(rt, b, store, 0)?;
    let _ = fork(rt, b, store)?;
    Ok(())
}

fn scenario<B: Bank>(rt: &HostRuntime, b: &mut B) -> io::Result<()> {
    println!(rt; "spare {}", b.spare())?;
    let Some(first) = open(rt, b)? else {
        return Ok(());
    };
    octave(rt, b, first)?;
    if let Some(second) = fork(rt, b, first)? {
        numbers(rt, b, second)?;
    }
    print(rt, b, first, 1)?;
    refusals(rt, b, first)?;
    let third = open(rt, b)?;
    let _ = open(rt, b)?;
    let _ = fork(rt, b, first)?;
    if let Some(third) = third {
        ended(rt, b, third)?;
    }
    println!(rt; "spare {}", b.spare())
}

fn main(rt: HostRuntime) -> anyhow::Result<()> {
    let heap = rt.alloc();
    let mut stale = Slot::idle(Record {
        used: 300,
        cells: [Cell { root: 7, by: 3 }; 257],
    });
    stale.live = true;
    let mut slots = vec![in heap; stale; 3]?;
    let mut b = Semitones::new(slots.as_mut_slice());
    scenario(&rt, &mut b)?;
    Ok(())
}
