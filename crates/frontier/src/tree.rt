// The tree of goals that are to be solved. Its nodes are changed in place, and its boxes come from a pool and go back there.
ghost use Rattle.std.specs.Prelude.{◌≡◌, ℕ, ◌+◌, ◌<◌, ◌≤◌, true, IfOk, vec_len, vec_capacity};
ghost use Rattle.bank.specs.Calls.{Released};
ghost use Rattle.frontier.specs.declared.tree.Tree.TheVariants.{Leaf};
ghost use Rattle.frontier.specs.Trees.{boxes, Flat, In, Apart, leaves, next_goal_lem, Cleared};

use super::frame::Frame;
use bank::Bank;
use book::ShortRow;
use std::alloc::{AllocError, Global};
use std::mem;

// A goal to solve in a store of which n variables are in use.
#[derive(Clone, Copy)]
pub struct Task {
    pub goal: u16,
    pub frame: Frame,
    pub n: u16,
    pub store: u16,
}

#[derive(Drop)]
pub enum Tree {
    Leaf(Task),
    // The first has the next turn.
    Branch(Box<Tree>, Box<Tree>),
    // Each answer of the tree goes on to the goal.
    Chain(Box<Tree>, u16, Frame),
}

// An answer: its store, and how many variables are in use there.
#[derive(Clone, Copy, Debug, PartialEq, Eq)]
pub struct Found {
    pub n: u16,
    pub store: u16,
}

// What one step gave, and whether it left nothing of the tree. An answer comes with either, and so does none: the two say all that there is.
#[derive(Clone, Copy, Debug, PartialEq, Eq)]
pub struct Stepped {
    pub answer: Option<Found>,
    pub ended: bool,
}

// No answer came, and something is left.
pub(crate) const GOING: Stepped = Stepped {
    answer: None,
    ended: false,
};

// No answer came, and nothing is left.
pub(crate) const FAILED: Stepped = Stepped {
    answer: None,
    ended: true,
};

impl Tree {
    // What a box holds while no tree has it.
    pub(crate) fn blank() -> Tree
        ensures { boxes result ≡ 0 }
    {
        Tree::leaf(0, ShortRow::new(0), 0, 0)
    }

    // A leaf of these parts.
    pub(crate) fn leaf(goal: u16, frame: Frame, n: u16, store: u16) -> Tree
        ensures { result ≡ Leaf (record { goal = goal; frame = frame; n = n; store = store }) }
    {
        Tree::Leaf(Task {
            goal,
            frame,
            n,
            store,
        })
    }
}

// Boxes for the nodes below the root: a tree has 1,024 nodes at most.
const BOXES: usize = 1023;

// The pool.
pub fn boxes_made(heap: Global) -> Result<Vec<Box<Tree>>, AllocError>
    ensures { IfOk result (λ v. (vec_len v ≡ 1023) × (1023 ≤ vec_capacity v)) }
{
    let mut pool = Vec::with_capacity(heap, BOXES)?;
    for _ in 0..BOXES {
        pool.push_reserved(Box::new(heap, Tree::blank())?);
    }
    Ok(pool)
}

// A box of the pool, holding `t`.
pub(crate) fn boxed(pool: &mut Vec<Box<Tree>>, t: Tree) -> Box<Tree>
    requires { 0 < vec_len pool.old }
    ensures holds { result.value ≡ t }
    ensures len { vec_len pool.new + 1 ≡ vec_len pool.old }
    ensures cap { vec_capacity pool.new ≡ vec_capacity pool.old }
{
    let mut b = pool.pop().unwrap();
    *b = t;
    b
}

// Takes the root's boxes into the pool, where only leaves are below it.
pub(crate) fn give_back(pool: &mut Vec<Box<Tree>>, t: Tree)
    requires flat { Flat t }
    requires room { vec_len pool.old + boxes t ≤ vec_capacity pool.old }
    ensures len { vec_len pool.new ≡ vec_len pool.old + boxes t }
    ensures cap { vec_capacity pool.new ≡ vec_capacity pool.old }
{
    match t {
        Tree::Leaf(_) => {}
        Tree::Branch(a, b) => {
            pool.push_reserved(a);
            pool.push_reserved(b);
        }
        Tree::Chain(a, _, _) => pool.push_reserved(a),
    }
}

// The goal of the leaf at which the next step takes place.
pub fn next_goal(t: &Tree) -> u16
    ensures { result ≡ next_goal_lem t.now }
{
    match t {
        Tree::Leaf(leaf) => leaf.goal,
        Tree::Branch(a, _) => next_goal(a),
        Tree::Chain(a, _, _) => next_goal(a),
    }
}

// Ends a live store.
pub fn let_go<B: Bank>(bank: &mut B, store: u16)
    requires { (B.Bank.view.meaning bank.old).live store ≡ true }
    ensures { Released (B.Bank.view.meaning bank.old) (B.Bank.view.meaning bank.new) store }
{
    bank.release(store).unwrap();
}

// Releases all stores of a tree, and takes its boxes into the pool.
pub fn clear<B: Bank>(bank: &mut B, pool: &mut Vec<Box<Tree>>, t: &mut Tree)
    requires room { vec_len pool.old + boxes t.old ≤ vec_capacity pool.old }
    requires live { (x : ℕ) → In t.old x → (B.Bank.view.meaning bank.old).live x ≡ true }
    requires apart { Apart t.old }
    ensures bank { Cleared (B.Bank.view.meaning bank.old) (B.Bank.view.meaning bank.new) (In t.old) (leaves t.old) }
    ensures flat { boxes t.new ≡ 0 }
    ensures len { vec_len pool.new ≡ vec_len pool.old + boxes t.old }
    ensures cap { vec_capacity pool.new ≡ vec_capacity pool.old }
{
    match t {
        Tree::Leaf(leaf) => let_go(bank, leaf.store),
        Tree::Branch(a, b) => {
            clear(bank, pool, a);
            clear(bank, pool, b);
            give_back(pool, mem::replace(t, Tree::blank()));
        }
        Tree::Chain(a, _, _) => {
            clear(bank, pool, a);
            give_back(pool, mem::replace(t, Tree::blank()));
        }
    }
}
