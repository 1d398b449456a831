// Whether no class lies below itself: marks the variables in use from the bottom up.
ghost use Rattle.std.specs.Prelude.{◌≡◌, ◌<◌, length};
ghost use Rattle.trees.specs.Stores.{Shaped, form_of};
ghost use Rattle.trees.specs.Values.{ready};
ghost use Rattle.trees.specs.Marks.{marked, Marked, Step, Passed, Grounds};

use crate::cells::{Form, Store};
use crate::classes::known;

// Whether the sides of a variable's form are marked.
fn is_ready(r: &Store, marks: &[bool], x: u16) -> bool
    requires shaped { Shaped r.now }
    requires long { length marks.now ≡ r.now.used }
    requires within { x < r.now.used }
    ensures { result ≡ ready (marked marks.now) (form_of r.now x) }
{
    match known(r, x) {
        Form::Free | Form::Number(_) => true,
        Form::Pair(a, b) => marks[a as usize] && marks[b as usize],
    }
}

// Marks a variable if it is ready: how many are then marked.
fn mark(r: &Store, marks: &mut [bool], x: u16, n: usize) -> usize
    requires shaped { Shaped r.now }
    requires marked { Marked r.now marks.old n }
    requires within { x < r.now.used }
    ensures { Step r.now marks.old marks.new x n result }
{
    if marks[x as usize] || !is_ready(r, marks, x) {
        return n;
    }
    marks[x as usize] = true;
    n + 1
}

// Marks what is ready: how many are then marked. The parts of a pair are mostly younger than the pair, so the highest variable comes first.
fn pass(r: &Store, marks: &mut [bool], n: usize) -> usize
    requires shaped { Shaped r.now }
    requires marked { Marked r.now marks.old n }
    ensures { Passed r.now marks.new n result }
{
    let mut m = n;
    for x in (0..r.used).rev() {
        m = mark(r, marks, x, m);
    }
    m
}

// Marks until nothing more is ready: whether all is then marked.
fn marks_all(r: &Store, marks: &mut [bool]) -> bool
    requires shaped { Shaped r.now }
    requires marked { Marked r.now marks.old 0 }
    ensures { Grounds r.now result }
{
    let mut n = 0;
    loop {
        let m = pass(r, marks, n);
        if m == n {
            return n == r.used as usize;
        }
        n = m;
    }
}

// Whether no class lies below itself.
pub fn grounded(r: &Store) -> bool
    requires { Shaped r.now }
    ensures { Grounds r.now result }
{
    let mut marks = [false; 256];
    marks_all(r, &mut marks[0..r.used as usize])
}
