// Tells one store. What shows at once is decided where the store stands. The rest is worked out apart from it, since a contradiction may
// show late, and must leave the store as it was.
ghost use Rattle.std.specs.Prelude.{◌≡◌, ◌<◌};
ghost use Rattle.trees.specs.Stores.{Formed, Shaped};
ghost use Rattle.trees.specs.Values.{Sound};
ghost use Rattle.trees.specs.Joins.{flat, leaf, shallow};
ghost use Rattle.trees.specs.Tasks.{Told, Decided};
ghost use Rattle.trees.specs.declared.tasks.Task.TheVariants.{Has, Equal};

use crate::cells::{Form, Store};
use crate::classes::{alike, form_at, root_of};
use crate::joins::{choose, clashes, unite};
use crate::store::{narrow, span};
use crate::tasks::{Bind, Merge, Task};
use bank::{Effect, Refusal};

fn is_flat(f: Form) -> bool
    ensures { result ≡ flat f }
{
    !matches!(f, Form::Pair(_, _))
}

// Whether a variable is in another class than that of `a`, and nothing lies below it.
fn is_leaf(r: &Store, a: u16, y: u16) -> bool
    requires shaped { Shaped r.now }
    requires within { y < 256 }
    ensures { result ≡ leaf r.now a y }
{
    let root = root_of(r, y);
    root != a && is_flat(form_at(r, root))
}

// Whether a form puts nothing but leaves below the class of `a`, so that no value can come to lie below itself.
fn is_shallow(r: &Store, a: u16, form: Form) -> bool
    requires shaped { Shaped r.now }
    requires formed { Formed 256 form }
    ensures { result ≡ shallow r.now a form }
{
    match form {
        Form::Free | Form::Number(_) => true,
        Form::Pair(y, z) => is_leaf(r, a, y) && is_leaf(r, a, z),
    }
}

// Tells that a variable has a form, which a class of which nothing is known takes as it stands.
#[tactic(auto, using(crate::proofs::Deciding::form_held, crate::proofs::Deciding::form_refused))]
fn decide_form(r: &mut Store, t: Bind) -> Option<Result<Effect, Refusal>>
    requires { Sound r.old }
    ensures { Decided r.old r.new (Has t) result }
{
    let a = root_of(r, t.x);
    let f = form_at(r, a);
    if clashes(f, t.form) {
        return Some(Err(Refusal::Contradiction));
    }
    if f == t.form {
        return Some(Ok(Effect::Kept));
    }
    if f == Form::Free && is_shallow(r, a, t.form) {
        r.reach(span(Task::Has(t)));
        r.whole();
        r.cells[a as usize].form = t.form;
        return Some(Ok(Effect::Narrowed));
    }
    None
}

// Tells that two variables are equal. Two classes that are no pairs are joined as they stand.
#[tactic(auto, using(crate::proofs::Deciding::equal_held, crate::proofs::Deciding::equal_refused))]
fn decide_equal(r: &mut Store, t: Merge) -> Option<Result<Effect, Refusal>>
    requires { Sound r.old }
    ensures { Decided r.old r.new (Equal t) result }
{
    let a = root_of(r, t.x);
    let b = root_of(r, t.y);
    if a == b {
        return Some(Ok(Effect::Kept));
    }
    let f = form_at(r, a);
    let g = form_at(r, b);
    if clashes(f, g) {
        return Some(Err(Refusal::Contradiction));
    }
    if is_flat(f) && is_flat(g) {
        r.reach(span(Task::Equal(t)));
        unite(r, a, b, choose(f, g));
        return Some(Ok(Effect::Narrowed));
    }
    None
}

// Tells a store what a constraint asks, unless more than the classes that it names has to be looked at.
pub fn decide(r: &mut Store, t: Task) -> Option<Result<Effect, Refusal>>
    requires { Sound r.old }
    ensures { Decided r.old r.new t result }
{
    match t {
        Task::Equal(t) => decide_equal(r, t),
        Task::Has(t) => decide_form(r, t),
    }
}

// Tells a store by narrowing a copy of all of it.
pub fn tell_copied(r: &mut Store, t: Task) -> Result<Effect, Refusal>
    requires { Sound r.old }
    ensures { Told r.old r.new t result }
{
    let mut narrowed = *r;
    narrow(&mut narrowed, t)?;
    if alike(r, &narrowed) {
        return Ok(Effect::Kept);
    }
    *r = narrowed;
    Ok(Effect::Narrowed)
}
