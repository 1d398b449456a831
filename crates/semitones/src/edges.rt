// Reads the edge that a constraint says.
ghost use Rattle.std.specs.Prelude.{◌≡◌};
ghost use Rattle.bank.specs.Conditions.{condition};
ghost use Rattle.semitones.specs.Edges.{Reads};
ghost use Rattle.semitones.specs.Whole.{variables_of};

use crate::cells::Edge;
use bank::{Constraint, Refusal, Vars};

// How many variables a code takes, if it is known.
pub fn arity(code: u8) -> Option<u8>
    ensures { result ≡ variables_of code }
{
    match code {
        0 | 3 => Some(2),
        1 => Some(1),
        _ => None,
    }
}

// The edge that a constraint says, or why it says none.
pub fn edge(c: &Constraint) -> Result<Edge, Refusal>
    ensures { Reads (condition c.now) result }
{
    c.check(arity(c.code), 256)?;
    let k = c.k;
    match (c.code, c.vars) {
        (0, Vars::Two(x, y)) => Ok(Edge {
            a: x + 1,
            b: y + 1,
            k: 0,
        }),
        (1, Vars::One(x)) => Ok(Edge { a: x + 1, b: 0, k }),
        (3, Vars::Two(x, y)) => Ok(Edge {
            a: x + 1,
            b: y + 1,
            k,
        }),
        _ => unreachable!(),
    }
}
