// Reads what a record says.
ghost use Rattle.std.specs.Prelude.{◌≡◌, ◌<◌, ◌≤◌, true};
ghost use Rattle.trees.specs.Stores.{root_of_lem, form_at_lem, form_of, Shaped, Alike};

use crate::cells::{Form, Store};

// The lowest variable of a class.
#[tactic(auto, unfolding(crate::specs::Stores::root_of_lem))]
pub fn root_of(r: &Store, x: u16) -> u16
    requires { x < 256 }
    ensures { result ≡ root_of_lem r.now x }
{
    if x < r.used {
        r.cells[x as usize].root
    } else {
        x
    }
}

// The form that stands at a variable, which is that of its class if it is the lowest there.
#[tactic(auto, unfolding(crate::specs::Stores::form_at_lem))]
pub fn form_at(r: &Store, x: u16) -> Form
    requires { x < 256 }
    ensures { result ≡ form_at_lem r.now x }
{
    if x < r.used {
        r.cells[x as usize].form
    } else {
        Form::Free
    }
}

// What is known of a variable's class.
pub fn known(r: &Store, x: u16) -> Form
    requires shaped { Shaped r.now }
    requires within { x < 256 }
    ensures { result ≡ form_of r.now x }
{
    form_at(r, root_of(r, x))
}

// Whether two records say the same of a variable.
fn agree(a: &Store, b: &Store, x: u16) -> bool
    requires { x < 256 }
    ensures { result ≡ true → (root_of_lem b.now x ≡ root_of_lem a.now x) × (form_at_lem b.now x ≡ form_at_lem a.now x) }
{
    root_of(a, x) == root_of(b, x) && form_at(a, x) == form_at(b, x)
}

// Whether two records say the same, of which the second uses as many variables or more.
pub fn alike(a: &Store, b: &Store) -> bool
    requires more { a.now.used ≤ b.now.used }
    requires within { b.now.used ≤ 256 }
    ensures { result ≡ true → Alike a.now b.now }
{
    (0..b.used).all(|x| agree(a, b, x))
}
