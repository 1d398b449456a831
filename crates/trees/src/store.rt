// Puts a constraint to one store.
ghost use Rattle.std.specs.Prelude.{◌≤◌};
ghost use Rattle.trees.specs.Stores.{Formed};
ghost use Rattle.trees.specs.Values.{Sound};
ghost use Rattle.trees.specs.Tasks.{Proper, Narrows};

use crate::cells::{Equation, Form, NoSolution, Store};
use crate::joins::{resolve, start};
use crate::levels::grounded;
use crate::tasks::Task;
use stack::Stack;

// How far the variables of a form go.
fn form_span(f: Form) -> u16
    requires { Formed 256 f }
    ensures few { result ≤ 256 }
    ensures all { Formed result f }
{
    match f {
        Form::Free | Form::Number(_) => 0,
        Form::Pair(y, z) => y.max(z) + 1,
    }
}

// How far the variables of a task go.
pub fn span(t: Task) -> u16
    ensures few { result ≤ 256 }
    ensures all { Proper result t }
{
    match t {
        Task::Equal(t) => t.x.max(t.y) + 1,
        Task::Has(t) => form_span(t.form).max(t.x + 1),
    }
}

// Leaves a record those of its solutions at which what is asked holds, if there is one. There are slots for every pending equation: a join
// that leaves two of them has one class fewer.
pub fn narrow(r: &mut Store, t: Task) -> Result<(), NoSolution>
    requires { Sound r.old }
    ensures { Narrows r.old r.new t result }
{
    r.reach(span(t));
    let mut slots = [Equation { x: 0, y: 0 }; 260];
    let mut s = Stack::new(&mut slots);
    start(r, t, &mut s)?;
    resolve(r, &mut s)?;
    if grounded(r) { Ok(()) } else { Err(NoSolution) }
}
