// Joins classes, with a stack of equations that are still to be joined.
ghost use Rattle.std.specs.Prelude.{◌≡◌, ◌+◌, ◌<◌, ◌≤◌, [], ◌++◌, length};
ghost use Rattle.stack.specs.Items.{items, room as places};
ghost use Rattle.trees.specs.Stores.{Shaped, Named, classes};
ghost use Rattle.trees.specs.Joins.{sides, clash, chosen, Meets, Moved, Joins, Resolves};
ghost use Rattle.trees.specs.Tasks.{Proper, Starts};
ghost use Rattle.trees.specs.declared.tasks.Task.TheVariants.{Has};

use crate::cells::{Equation, Form, NoSolution, Store};
use crate::classes::{form_at, root_of};
use crate::tasks::{Bind, Task};
use stack::Stack;

// Whether no value has both forms.
pub fn clashes(f: Form, g: Form) -> bool
    ensures { result ≡ clash f g }
{
    match (f, g) {
        (Form::Number(j), Form::Number(k)) => j != k,
        (Form::Number(_), Form::Pair(_, _)) | (Form::Pair(_, _), Form::Number(_)) => true,
        _ => false,
    }
}

// Makes the sides of two pairs pending, left with left and right with right.
fn pend(f: Form, g: Form, s: &mut Stack<Equation>)
    requires { length (items s.old) + 2 ≤ places s.old }
    ensures room { places s.new ≡ places s.old }
    ensures pending { items s.new ≡ sides f g ++ items s.old }
{
    if let (Form::Pair(a, b), Form::Pair(c, d)) = (f, g) {
        s.push(Equation { x: b, y: d }).unwrap();
        s.push(Equation { x: a, y: c }).unwrap();
    }
}

// Makes pending what it takes that a value has both forms.
fn meet(f: Form, g: Form, s: &mut Stack<Equation>) -> Result<(), NoSolution>
    requires { length (items s.old) + 2 ≤ places s.old }
    ensures room { places s.new ≡ places s.old }
    ensures met { Meets f g (items s.old) (items s.new) result }
{
    if clashes(f, g) {
        return Err(NoSolution);
    }
    pend(f, g, s);
    Ok(())
}

// Puts the class of `from` under `to`, which takes a form.
fn link(r: &mut Store, from: u16, to: u16, form: Form)
    requires used { r.old.used ≤ 256 }
    requires first { from < r.old.used }
    requires second { to < r.old.used }
    ensures { Moved from to form r.old r.new }
{
    r.whole();
    let cells = &mut r.cells[0..r.used as usize];
    for cell in cells.iter_mut() {
        if cell.root == from {
            cell.root = to;
        }
    }
    r.cells[to as usize].form = form;
}

// Puts the higher of two classes under the lower, which takes a form.
pub fn unite(r: &mut Store, a: u16, b: u16, form: Form)
    requires used { r.old.used ≤ 256 }
    requires first { a < r.old.used }
    requires second { b < r.old.used }
    ensures up { a < b → Moved b a form r.old r.new }
    ensures down { b < a → Moved a b form r.old r.new }
{
    if a < b {
        link(r, b, a, form);
    } else {
        link(r, a, b, form);
    }
}

// The form that is kept of two.
pub fn choose(f: Form, g: Form) -> Form
    ensures { result ≡ chosen f g }
{
    match f {
        Form::Free => g,
        _ => f,
    }
}

// Puts an equation into the record, up to the pending equations.
fn join(r: &mut Store, e: Equation, s: &mut Stack<Equation>) -> Result<(), NoSolution>
    requires shaped { Shaped r.old }
    requires named { (e.x < r.old.used) × (e.y < r.old.used) }
    requires pending { Named r.old.used (items s.old) }
    requires room { length (items s.old) + 2 ≤ places s.old }
    ensures room { places s.new ≡ places s.old }
    ensures joined { Joins r.old r.new e (items s.old) (items s.new) result }
{
    let a = root_of(r, e.x);
    let b = root_of(r, e.y);
    if a == b {
        return Ok(());
    }
    let f = form_at(r, a);
    let g = form_at(r, b);
    meet(f, g, s)?;
    unite(r, a, b, choose(f, g));
    Ok(())
}

// Joins all that is pending.
pub fn resolve(r: &mut Store, s: &mut Stack<Equation>) -> Result<(), NoSolution>
    requires shaped { Shaped r.old }
    requires pending { Named r.old.used (items s.old) }
    requires room { classes r.old + length (items s.old) < places s.old }
    ensures { Resolves r.old r.new (items s.old) result }
{
    while let Some(e) = s.pop() {
        join(r, e, s)?;
    }
    Ok(())
}

// Gives the class of a variable a form, up to the pending equations.
fn shape(r: &mut Store, t: Bind, s: &mut Stack<Equation>) -> Result<(), NoSolution>
    requires shaped { Shaped r.old }
    requires proper { Proper r.old.used (Has t) }
    requires empty { items s.old ≡ [] }
    requires room { 2 ≤ places s.old }
    ensures room { places s.new ≡ places s.old }
    ensures started { Starts r.old r.new (Has t) (items s.new) result }
{
    let a = root_of(r, t.x);
    let f = form_at(r, a);
    meet(f, t.form, s)?;
    r.whole();
    r.cells[a as usize].form = choose(f, t.form);
    Ok(())
}

// Makes a record do what is asked, up to the pending equations.
pub fn start(r: &mut Store, t: Task, s: &mut Stack<Equation>) -> Result<(), NoSolution>
    requires shaped { Shaped r.old }
    requires proper { Proper r.old.used t }
    requires empty { items s.old ≡ [] }
    requires room { 2 ≤ places s.old }
    ensures room { places s.new ≡ places s.old }
    ensures started { Starts r.old r.new t (items s.new) result }
{
    match t {
        Task::Equal(t) => {
            s.push(Equation { x: t.x, y: t.y }).unwrap();
            Ok(())
        }
        Task::Has(t) => shape(r, t, s),
    }
}
