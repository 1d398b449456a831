// Drives the bank of trees through a scenario, and prints every answer and refusal.
#![tactic(auto)]

mod told;

use bank::{Bank, Constraint, Effect, Refusal, Vars};
use records::Slot;
use told::{equal, number, pair, print_told};
use trees::{Cell, Form, Store, Trees};

fn tell<B: Bank>(rt: &impl Print, bank: &mut B, store: u16, c: &Constraint) -> anyhow::Result<()> {
    let answer = bank.tell(store, c);
    print_told(rt, store, c)?;
    match answer {
        Ok(Effect::Kept) => println!(rt; ": kept")?,
        Ok(Effect::Narrowed) => println!(rt; ": narrowed")?,
        Err(refusal) => {
            let cause = refusal.number();
            println!(rt; ": refused {cause}")?;
        }
    }
    Ok(())
}

fn tell_all<B: Bank>(
    rt: &impl Print,
    bank: &mut B,
    store: u16,
    all: &[Constraint],
) -> anyhow::Result<()> {
    for c in all {
        tell(rt, bank, store, c)?;
    }
    Ok(())
}

// Prints the text of a variable, for which there are 24 bytes.
fn show<B: Bank>(rt: &impl Print, bank: &B, store: u16, var: u16) -> anyhow::Result<()> {
    let mut part = [b'#'; 24];
    match bank.print(store, var, &mut part) {
        Ok(n) => {
            let text = std::str::from_utf8(&part[..n])?;
            println!(rt; "{store}: text of {var} is {text}")?;
        }
        Err(refusal) => {
            let cause = refusal.number();
            let first = part[0];
            println!(rt; "{store}: text of {var}: refused {cause}, first byte {first}")?;
        }
    }
    Ok(())
}

fn show_all<B: Bank>(rt: &impl Print, bank: &B, store: u16, vars: u16) -> anyhow::Result<()> {
    for var in 0..vars {
        show(rt, bank, store, var)?;
    }
    Ok(())
}

// Prints which store an answer names, or why it names none.
fn answered(rt: &impl Print, what: &str, answer: Result<u16, Refusal>) -> anyhow::Result<()> {
    match answer {
        Ok(store) => println!(rt; "{what}: store {store}")?,
        Err(refusal) => {
            let cause = refusal.number();
            println!(rt; "{what}: refused {cause}")?;
        }
    }
    Ok(())
}

// Free, bound and nested variables, and two that are told the same number.
fn nested<B: Bank>(rt: &impl Print, bank: &mut B) -> anyhow::Result<()> {
    answered(rt, "open", bank.open())?;
    let told = [
        pair(0, 1, 2),
        pair(1, 3, 4),
        number(4, -12),
        number(2, 1000),
        number(5, -12),
    ];
    tell_all(rt, bank, 0, &told)?;
    show_all(rt, bank, 0, 7)
}

// Equal pairs have equal parts, in a copy of the first store.
fn shared<B: Bank>(rt: &impl Print, bank: &mut B) -> anyhow::Result<()> {
    answered(rt, "fork 0", bank.fork(0))?;
    let told = [
        pair(6, 7, 8),
        equal(6, 0),
        equal(0, 6),
        pair(7, 9, 5),
        number(9, 5),
        number(3, 6),
        number(6, 5),
    ];
    tell_all(rt, bank, 1, &told)?;
    show_all(rt, bank, 1, 10)?;
    show(rt, bank, 0, 0)
}

// No value lies below itself, and a refusal leaves the store as it was.
fn cyclic<B: Bank>(rt: &impl Print, bank: &mut B) -> anyhow::Result<()> {
    answered(rt, "open", bank.open())?;
    let told = [
        pair(0, 1, 2),
        pair(1, 3, 4),
        equal(3, 0),
        pair(2, 2, 1),
        equal(3, 4),
    ];
    tell_all(rt, bank, 2, &told)?;
    show_all(rt, bank, 2, 5)
}

// A text doubles with each level; the longest here has more bytes than any memory. The text of 150 just finds room, and that of 137 lacks
// a byte.
fn long<B: Bank>(rt: &impl Print, bank: &mut B) -> anyhow::Result<()> {
    for x in 100..139u16 {
        if bank.tell(2, &pair(x, x + 1, x + 1)).is_err() {
            println!(rt; "2: {x} refused")?;
        }
    }
    tell_all(rt, bank, 2, &[pair(150, 138, 151), pair(151, 139, 99)])?;
    show(rt, bank, 2, 138)?;
    show(rt, bank, 2, 150)?;
    show(rt, bank, 2, 137)?;
    show(rt, bank, 2, 100)
}

// What no store takes, in the order in which the causes count.
fn refused<B: Bank>(rt: &impl Print, bank: &mut B) -> anyhow::Result<()> {
    let unknown = Constraint {
        code: 3,
        k: 0,
        vars: Vars::Two(0, 300),
    };
    let few = Constraint {
        code: 2,
        k: 0,
        vars: Vars::Two(0, 1),
    };
    let none = Constraint {
        code: 0,
        k: 0,
        vars: Vars::Zero,
    };
    tell_all(rt, bank, 3, &[unknown, number(0, 1)])?;
    tell_all(
        rt,
        bank,
        2,
        &[
            unknown,
            few,
            none,
            number(300, 1001),
            number(256, -1000),
            equal(0, 256),
        ],
    )?;
    show(rt, bank, 3, 300)?;
    show(rt, bank, 2, 256)
}

fn ended<B: Bank>(rt: &impl Print, bank: &mut B, store: u16) -> anyhow::Result<()> {
    match bank.release(store) {
        Ok(()) => println!(rt; "release {store}")?,
        Err(refusal) => {
            let cause = refusal.number();
            println!(rt; "release {store}: refused {cause}")?;
        }
    }
    let spare = bank.spare();
    println!(rt; "{spare} to spare")?;
    Ok(())
}

fn scenario<B: Bank>(rt: &impl Print, bank: &mut B) -> anyhow::Result<()> {
    nested(rt, bank)?;
    shared(rt, bank)?;
    cyclic(rt, bank)?;
    long(rt, bank)?;
    answered(rt, "open", bank.open())?;
    answered(rt, "fork 2", bank.fork(2))?;
    answered(rt, "fork 3", bank.fork(3))?;
    refused(rt, bank)?;
    ended(rt, bank, 1)?;
    ended(rt, bank, 1)?;
    answered(rt, "fork 2", bank.fork(2))?;
    show(rt, bank, 1, 137)
}

fn main(rt: HostRuntime) -> anyhow::Result<()> {
    let mut stale = Store::new();
    stale.used = 200;
    stale.cells[0] = Cell {
        root: 999,
        form: Form::Pair(0, 300),
    };
    let mut slot = Slot::idle(stale);
    slot.live = true;
    let mut slots = [slot; 3];
    let mut bank = Trees::new(&mut slots);
    let spare = bank.spare();
    println!(rt; "{spare} to spare")?;
    scenario(&rt, &mut bank)
}
