// Making a search, posing a rule, and taking an answer.
ghost use Rattle.std.specs.Prelude.{◌≡◌, min, true, None, IfOk, is_none};
ghost use Rattle.std.specs.List.{reduce};
ghost use Rattle.book.specs.Meaning.{book_nodes};
ghost use Rattle.frontier.specs.Books.{known};
ghost use Rattle.search.specs.Unknowns.{unknown_lines};
ghost use Rattle.search.specs.Parts.{tree_of};
ghost use Rattle.search.specs.Calls.{Good, NoneLeft, NewDoes, PoseDoes, WriteDoes, TakeDoes, Waits, Holding, Emptied};

use super::refusal::Refusal;
use super::{NoMemory, Search};
use answer_line::write_line;
use bank::Bank;
use book::{Book, Form};
use frontier::{Found, Task, Tree, boxes_made, clear, first, let_go};
use std::alloc::Global;

// Whether the bank knows what a goal tells, if it tells.
fn knows<B: Bank>(bank: &B, form: Form) -> bool
    ensures { result ≡ known B.Bank.view.kind form }
{
    match form {
        Form::Tell(tell) => bank.knows(tell.code) == Some(tell.slots.len() as u8),
        _ => true,
    }
}

// The first line with a tell that the bank does not know. Goals stand in the table behind those below them, so all are read.
fn unknown_tell<B: Bank>(bank: &B, book: &Book) -> Option<u16>
    ensures { result ≡ reduce min (unknown_lines B.Bank.view.kind (book_nodes book.now)) }
{
    (0..book.goal_count() as u16)
        .filter(|&goal| !knows(bank, book.form(goal)))
        .map(|goal| book.line(goal))
        .min()
}

// Releases all that a search holds. It takes the parts: until another rule is posed, they make no search.
fn empty<B: Bank>(
    bank: &mut B,
    pool: &mut Vec<Box<Tree>>,
    tree: &mut Option<Tree>,
    waiting: &mut Option<Found>,
)
    requires { Holding (B.Bank.view.meaning bank.old) (is_none tree.old) (tree_of tree.old) waiting.old pool.old }
    ensures does { Emptied (B.Bank.view.meaning bank.old) (B.Bank.view.meaning bank.new) (is_none tree.old) (tree_of tree.old) waiting.old pool.old pool.new }
    ensures none { (tree.new ≡ None) × (waiting.new ≡ None) }
    ensures idle { is_none tree.old ≡ true → waiting.old ≡ None → (bank.new ≡ bank.old) × (tree_of tree.new ≡ tree_of tree.old) × (pool.new ≡ pool.old) }
{
    if let Some(x) = waiting.take() {
        let_go(bank, x.store);
    }
    if let Some(mut held) = tree.take() {
        clear(bank, pool, &mut held);
    }
}

impl<B: Bank> Search<B> {
    // A search over a bank, which only the search changes from then on. It never touches the stores that are live already.
    pub fn new(heap: Global, bank: B) -> Result<Search<B>, NoMemory<B>>
        ensures good { IfOk result (λ t. Good B.Bank.view t) }
        ensures does { NewDoes B.Bank.view bank result }
        ensures fresh { IfOk result (λ t. t.steps ≡ 0) }
    {
        let stock = bank.spare();
        let Ok(pool) = boxes_made(heap) else {
            return Err(NoMemory { bank });
        };
        Ok(Search {
            bank,
            book: Book::empty(),
            params: 0,
            tree: None,
            pool,
            waiting: None,
            posed: false,
            steps: 0,
            stock,
        })
    }

    // Starts the search for the answers of a rule, in place of what was posed before.
    pub fn pose(&mut self, book: &Book, rule: usize) -> Result<(), Refusal>
        ensures good { Good B.Bank.view self.new }
        ensures does { PoseDoes B.Bank.view self.old book.now rule result self.new }
        ensures none_left { NoneLeft B.Bank.view self.old self.new }
    {
        self.holds();
        if rule >= book.rule_count() {
            return Err(Refusal::NoSuchRule);
        }
        if let Some(line) = unknown_tell(&self.bank, book) {
            return Err(Refusal::UnknownTell { line });
        }
        let asked = book.rule(rule);
        let frame = first(asked.params);
        empty(
            &mut self.bank,
            &mut self.pool,
            &mut self.tree,
            &mut self.waiting,
        );
        // Refused only if the stock is 0; then nothing was held, and nothing has changed.
        let store = self.bank.open()?;
        self.book = *book;
        self.params = asked.params;
        self.tree = Some(Tree::Leaf(Task {
            goal: asked.goal,
            frame,
            n: u16::from(asked.params),
            store,
        }));
        self.posed = true;
        self.steps = 0;
        Ok(())
    }

    // The answer that waits.
    fn answer(&self) -> Result<Found, Refusal>
        ensures { Waits self.now result }
    {
        if !self.posed {
            return Err(Refusal::NothingPosed);
        }
        self.waiting.ok_or(Refusal::NoAnswer)
    }

    // Puts the texts of the answer that waits, parted by commas, at the front of a buffer, and answers the line's length.
    pub fn write(&self, buffer: &mut [u8]) -> Result<usize, Refusal>
        ensures { WriteDoes B.Bank.view self.now buffer.old result buffer.new }
    {
        let found = self.answer()?;
        if buffer.len() < 1024 {
            return Err(Refusal::ShortBuffer);
        }
        let count = u16::from(self.params);
        Ok(write_line(&self.bank, found.store, count, buffer)?)
    }

    // What holds of every search, said where a call changes none of its parts.
    pub(crate) fn holds(&self)
        ensures { Good B.Bank.view self.now }
    {
        let _ = &self.pool;
    }

    // Releases the answer that waits.
    pub fn take(&mut self) -> Result<(), Refusal>
        ensures good { Good B.Bank.view self.new }
        ensures does { TakeDoes B.Bank.view self.old result self.new }
        ensures none_left { NoneLeft B.Bank.view self.old self.new }
    {
        let taken = self.answer()?;
        let_go(&mut self.bank, taken.store);
        self.waiting = None;
        Ok(())
    }
}
