// A draft turned into a table of goals, from its last line up: the goals below a goal are there before it.
ghost use Rattle.std.specs.Prelude.{◌≡◌, ℕ, ◌<◌, true, List, [], ◌∷◌, ◌++◌, length};
ghost use Rattle.book.specs.Building.{formed, unused, head, tail};
ghost use Rattle.book.specs.Drafts.{entries};
ghost use Rattle.book.specs.Meaning.{nodes, meaning};
ghost use Rattle.book.specs.Reading.{check, start, passed, heads, misfit, fitting, forest};
ghost use Rattle.book.specs.Table.{form_fits};
ghost use Rattle.stack.specs.Items.{items, room};

use super::drafts::{Draft, Listed};
use super::{Book, Form, Node, Rule, Table};
use line::{Line, ShortRow};
use stack::Stack;

impl Table {
    // One goal more, above goals that are there.
    #[tactic(auto, using(crate::proofs::Grows::nested_more))]
    fn add(&mut self, node: Node)
        requires room { length (nodes self.old) < 1024 }
        requires fits { form_fits (nodes self.old) node.scope node.line node.form ≡ true }
        ensures { nodes self.new ≡ nodes self.old ++ node ∷ [] }
    {
        self.goals.push(node);
    }
}

// The goal that waited first.
fn waiting(roots: &mut Stack<u16>) -> u16
    ensures value { result ≡ head (items roots.old) }
    ensures left { items roots.new ≡ tail (items roots.old) }
    ensures room { room roots.new ≡ room roots.old }
{
    roots.pop().unwrap_or(0)
}

// What the goal of a line is, with the goals that waited for it.
fn form_of(roots: &mut Stack<u16>, line: Line) -> Form
    ensures value { result ≡ formed (items roots.old) line }
    ensures left { items roots.new ≡ unused (items roots.old) line }
    ensures room { room roots.new ≡ room roots.old }
{
    match line {
        Line::Rule { .. } => Form::New { goal: 0 },
        Line::Tell(tell) => Form::Tell(tell),
        Line::And => {
            let first = waiting(roots);
            let second = waiting(roots);
            Form::And { first, second }
        }
        Line::Or => {
            let first = waiting(roots);
            let second = waiting(roots);
            Form::Or { first, second }
        }
        Line::New => Form::New {
            goal: waiting(roots),
        },
        Line::Call(call) => Form::Call(call),
    }
}

// The goal of a line, which then waits for one above it.
fn plant(table: &mut Table, roots: &mut Stack<u16>, listed: Listed, line: u16)
    requires place { length (nodes table.old) < 1024 }
    requires slot { length (unused (items roots.old) listed.line) < room roots.old }
    requires fits { form_fits (nodes table.old) listed.scope line (formed (items roots.old) listed.line) ≡ true }
    ensures added { nodes table.new ≡ nodes table.old ++ record { form = formed (items roots.old) listed.line; scope = listed.scope; line = line } ∷ [] }
    ensures waits { items roots.new ≡ length (nodes table.old) ∷ unused (items roots.old) listed.line }
    ensures room { room roots.new ≡ room roots.old }
{
    let form = form_of(roots, listed.line);
    let at = table.goals.len() as u16;
    table.add(Node {
        form,
        scope: listed.scope,
        line,
    });
    roots.push(at).unwrap();
}

// The book of lines that passed every check.
pub(crate) fn build(draft: &Draft) -> Book
    requires passed { (ls : List (List ℕ)) × (check 1 start ls ≡ passed (entries draft.now)) }
    requires fitting { misfit (heads (entries draft.now)) 1 (entries draft.now) ≡ fitting }
    ensures { meaning result ≡ (forest (entries draft.now)).rules }
{
    let mut table = Table::empty();
    let mut slots = [0u16; 1024];
    let mut roots = Stack::new(&mut slots);
    let mut rules = ShortRow::new(Rule { params: 0, goal: 0 });
    for (at, listed) in draft.listed.as_slice().iter().enumerate().rev() {
        if let Line::Rule { params } = listed.line {
            let goal = waiting(&mut roots);
            rules.push(Rule { params, goal });
        } else {
            plant(&mut table, &mut roots, *listed, at as u16 + 1);
        }
    }
    // The last rule was met first.
    rules.reverse();
    Book { table, rules }
}
