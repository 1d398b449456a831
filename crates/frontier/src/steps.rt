// One step: it takes place at one leaf, and the trees above the leaf take their turns.
ghost use Rattle.std.specs.Prelude.{◌≡◌, ◌+◌, ◌≤◌, true, false, vec_len, vec_capacity, ◌==◌, nat_lt};
ghost use Rattle.book.specs.Language.{Rules};
ghost use Rattle.machine.specs.Machine.{Tree as MachineTree};
ghost use Rattle.frontier.specs.Steps.{Ready, StepDoes, Boxed, Telling, TellDoes, Seconds, TakesUp};
ghost use Rattle.frontier.specs.declared.tree.Tree.{Branch};
ghost use Rattle.frontier.specs.Trees.{boxes, Flat};

use super::frame::{constraint_at, extend, select};
use super::stop::Stop;
use super::tree::{FAILED, Found, GOING, Stepped, Task, Tree, boxed, give_back, let_go};
use bank::Bank;
use book::{Book, Form, Tell};
use std::mem;

// Tells a leaf's store what the goal tells. Where no solution would be left, the store is released.
fn step_tell<B: Bank>(bank: &mut B, leaf: &Task, tell: &Tell) -> Stepped
    requires live { (B.Bank.view.meaning bank.old).live leaf.now.store ≡ true }
    requires tells { Telling B.Bank.view.kind B.Bank.view.variables leaf.now tell.now }
    ensures { TellDoes B.Bank.view.kind B.Bank.view.variables (B.Bank.view.meaning bank.old) (B.Bank.view.meaning bank.new) leaf.now tell.now result }
{
    let c = constraint_at(&leaf.frame, tell);
    match bank.tell(leaf.store, &c) {
        Ok(_) => Stepped {
            answer: Some(Found {
                n: leaf.n,
                store: leaf.store,
            }),
            ended: true,
        },
        Err(_) => {
            let_go(bank, leaf.store);
            FAILED
        }
    }
}

// Whether there are too few boxes for so many more nodes.
fn short_of(pool: &Vec<Box<Tree>>, nodes: usize) -> bool
    ensures { result ≡ nat_lt (vec_len pool.now) nodes }
{
    pool.len() < nodes
}

// Whether every variable of a store is in use.
fn all_used<B: Bank>(n: u16) -> bool
    ensures { result ≡ (n == B.Bank.view.variables) }
{
    n as usize == B::variables()
}

// A store for the other side of a branch.
fn second_store<B: Bank>(bank: &mut B, store: u16) -> Result<u16, Stop>
    ensures { Seconds (B.Bank.view.meaning bank.old) (B.Bank.view.meaning bank.new) store result }
{
    bank.fork(store).map_err(Stop::Stores)
}

// One step of a leaf.
fn step_leaf<B: Bank>(
    book: &Book,
    bank: &mut B,
    pool: &mut Vec<Box<Tree>>,
    t: &mut Tree,
    leaf: Task,
) -> Result<Stepped, Stop>
    requires here { t.old ≡ Tree.Leaf leaf }
    requires ready { (rules : Rules) × ((T : MachineTree) × Ready B.Bank.view.kind B.Bank.view.variables book.now rules (B.Bank.view.meaning bank.old) t.old T) }
    ensures does { StepDoes B.Bank.view.kind B.Bank.view.variables book.now (B.Bank.view.meaning bank.old) (B.Bank.view.meaning bank.new) t.old t.new (vec_len pool.old) result }
    ensures kept { vec_len pool.new + boxes t.new ≡ vec_len pool.old + boxes t.old }
    ensures cap { vec_capacity pool.new ≡ vec_capacity pool.old }
    ensures boxed { Boxed (vec_len pool.old) (vec_len pool.new) t.new result }
{
    match book.form(leaf.goal) {
        Form::Tell(tell) => Ok(step_tell(bank, &leaf, &tell)),
        Form::Or { first, second } => {
            if short_of(pool, 2) {
                return Err(Stop::Nodes);
            }
            let store = second_store(bank, leaf.store)?;
            let a = boxed(pool, Tree::leaf(first, leaf.frame, leaf.n, leaf.store));
            let b = boxed(pool, Tree::leaf(second, leaf.frame, leaf.n, store));
            *t = Tree::Branch(a, b);
            Ok(GOING)
        }
        Form::And { first, second } => {
            if short_of(pool, 1) {
                return Err(Stop::Nodes);
            }
            let a = boxed(pool, Tree::leaf(first, leaf.frame, leaf.n, leaf.store));
            *t = Tree::Chain(a, second, leaf.frame);
            Ok(GOING)
        }
        Form::New { goal } => {
            if all_used::<B>(leaf.n) {
                return Err(Stop::Variables);
            }
            let frame = extend(&leaf.frame, leaf.n);
            *t = Tree::leaf(goal, frame, leaf.n + 1, leaf.store);
            Ok(GOING)
        }
        Form::Call(call) => {
            let called = book.rule(call.rule as usize);
            let frame = select(&leaf.frame, &call.slots);
            *t = Tree::leaf(called.goal, frame, leaf.n, leaf.store);
            Ok(GOING)
        }
    }
}

// The other tree of a branch has the next turn.
fn take_turns(a: &mut Box<Tree>, b: &mut Box<Tree>)
    ensures first { a.new ≡ b.old }
    ensures second { b.new ≡ a.old }
{
    mem::swap(a, b);
}

// The leaf has the next turn, and the chain the one after.
fn ahead(leaf: Box<Tree>, chain: Box<Tree>) -> Tree
    ensures { result ≡ Branch leaf chain }
{
    Tree::Branch(leaf, chain)
}

// A leaf takes up the answer of a chain, and goes before what is left of the chain.
fn take_up(pool: &mut Vec<Box<Tree>>, t: &mut Tree, leaf: Tree, ended: bool)
    requires leaf { boxes leaf ≡ 0 }
    requires flat { ended ≡ true → Flat t.old }
    requires spare { ended ≡ false → 2 ≤ vec_len pool.old }
    requires room { vec_len pool.old + boxes t.old ≤ vec_capacity pool.old }
    ensures does { TakesUp ended t.old leaf t.new }
    ensures kept { vec_len pool.new + boxes t.new ≡ vec_len pool.old + boxes t.old }
    ensures cap { vec_capacity pool.new ≡ vec_capacity pool.old }
{
    if ended {
        give_back(pool, mem::replace(t, leaf));
    } else {
        let leaf = boxed(pool, leaf);
        let chain = boxed(pool, mem::replace(t, Tree::blank()));
        *t = ahead(leaf, chain);
    }
}

// One step of a tree. Where nothing is left of it, `t` holds a leaf that stands for nothing.
pub fn step<B: Bank>(
    book: &Book,
    bank: &mut B,
    pool: &mut Vec<Box<Tree>>,
    t: &mut Tree,
) -> Result<Stepped, Stop>
    requires room { vec_len pool.old + boxes t.old ≤ vec_capacity pool.old }
    requires ready { (rules : Rules) × ((T : MachineTree) × Ready B.Bank.view.kind B.Bank.view.variables book.now rules (B.Bank.view.meaning bank.old) t.old T) }
    ensures does { StepDoes B.Bank.view.kind B.Bank.view.variables book.now (B.Bank.view.meaning bank.old) (B.Bank.view.meaning bank.new) t.old t.new (vec_len pool.old) result }
    ensures kept { vec_len pool.new + boxes t.new ≡ vec_len pool.old + boxes t.old }
    ensures cap { vec_capacity pool.new ≡ vec_capacity pool.old }
    ensures boxed { Boxed (vec_len pool.old) (vec_len pool.new) t.new result }
{
    match t {
        Tree::Leaf(leaf) => {
            let leaf = *leaf;
            step_leaf(book, bank, pool, t, leaf)
        }
        Tree::Branch(a, b) => {
            let Stepped { answer, ended } = step(book, bank, pool, a)?;
            if ended {
                let right = mem::replace(&mut **b, Tree::blank());
                give_back(pool, mem::replace(t, right));
            } else {
                take_turns(a, b);
            }
            Ok(Stepped {
                answer,
                ended: false,
            })
        }
        Tree::Chain(a, g, frame) => {
            let Stepped { answer, ended } = step(book, bank, pool, a)?;
            match answer {
                None => {
                    if ended {
                        give_back(pool, mem::replace(t, Tree::blank()));
                        Ok(FAILED)
                    } else {
                        Ok(GOING)
                    }
                }
                Some(found) => {
                    let leaf = Tree::leaf(*g, *frame, found.n, found.store);
                    take_up(pool, t, leaf, ended);
                    Ok(GOING)
                }
            }
        }
    }
}
