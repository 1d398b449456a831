// Reads what a constraint asks.
ghost use Rattle.std.specs.Prelude.{◌≡◌};
ghost use Rattle.bank.specs.Conditions.{condition};
ghost use Rattle.trees.specs.Kind.{takes};
ghost use Rattle.trees.specs.Reading.{Reads};

use crate::cells::Form;
use crate::tasks::{Bind, Merge, Task};
use bank::{Constraint, Refusal, Vars};

// How many variables a code takes, if it is known.
pub fn arity(code: u8) -> Option<u8>
    ensures { result ≡ takes code }
{
    match code {
        0 => Some(2),
        1 => Some(1),
        2 => Some(3),
        _ => None,
    }
}

// What a constraint asks, or why it asks nothing. The range of k counts at every code.
pub fn task(c: &Constraint) -> Result<Task, Refusal>
    ensures { Reads (condition c.now) result }
{
    c.check(arity(c.code), 256)?;
    match (c.code, c.vars) {
        (0, Vars::Two(x, y)) => Ok(Task::Equal(Merge { x, y })),
        (1, Vars::One(x)) => Ok(Task::Has(Bind {
            x,
            form: Form::Number(c.k),
        })),
        (2, Vars::Three(x, y, z)) => Ok(Task::Has(Bind {
            x,
            form: Form::Pair(y, z),
        })),
        _ => unreachable!(),
    }
}
