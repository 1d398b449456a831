// The constraints of the bank of trees, and how they are printed.
use bank::{Constraint, Vars};

// x equals y.
pub fn equal(x: u16, y: u16) -> Constraint {
    Constraint {
        code: 0,
        k: 0,
        vars: Vars::Two(x, y),
    }
}

// x is the number k.
pub fn number(x: u16, k: i32) -> Constraint {
    Constraint {
        code: 1,
        k,
        vars: Vars::One(x),
    }
}

// x is the pair of y and z.
pub fn pair(x: u16, y: u16, z: u16) -> Constraint {
    Constraint {
        code: 2,
        k: 0,
        vars: Vars::Three(x, y, z),
    }
}

// The store, and what it is told: code, number, variables.
pub fn print_told(rt: &impl Print, store: u16, c: &Constraint) -> anyhow::Result<()> {
    let code = c.code;
    let k = c.k;
    match c.vars {
        Vars::Zero => print!(rt; "{store}: tell,{code},{k}")?,
        Vars::One(x) => print!(rt; "{store}: tell,{code},{k},{x}")?,
        Vars::Two(x, y) => print!(rt; "{store}: tell,{code},{k},{x},{y}")?,
        Vars::Three(x, y, z) => print!(rt; "{store}: tell,{code},{k},{x},{y},{z}")?,
    }
    Ok(())
}
