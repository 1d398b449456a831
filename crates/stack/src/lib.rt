// One stack over lent slots, written once for every kind of element that is copied.
#![tactic(auto)]

ghost use Rattle.std.specs.Prelude.{◌≡◌, ◌≤◌, [], length, ◌==◌};

// Unlike a row, it has no room of its own, and gives its elements newest first. The first `len` of the slots are in use, the newest element last.
#[derive(Drop)]
pub struct Stack<'a, T> {
    slots: &'a mut [T],
    len: usize,
    ghost fits: { len ≤ length slots.now },
}

// Every slot is in use.
#[derive(Clone, Copy, Debug, PartialEq)]
pub struct Full;

// Clauses name `items` and `room`, and no view: it would have to hold both, and each user's clause would take it apart.
impl<'a, T: Copy> Stack<'a, T> {
    ghost use Rattle.stack.specs.Items.{items, room, Pushed, Popped};

    // An empty stack, whatever the slots hold.
    pub fn new(slots: &'a mut [T]) -> Stack<'a, T>
        ensures empty { items result ≡ [] }
        ensures room { room result ≡ length slots.old }
        ensures lent { result.slots.now ≡ slots.old }
    {
        Stack { slots, len: 0 }
    }

    pub fn is_empty(&self) -> bool
        ensures { result ≡ (length (items self.now) == 0) }
    {
        self.len == 0
    }

    // One element more, or a refusal exactly if every slot is in use.
    pub fn push(&mut self, x: T) -> Result<(), Full>
        ensures does { Pushed self.old x result self.new }
        ensures lender { self.new.slots.ghost_name ≡ self.old.slots.ghost_name }
    {
        if self.len == self.slots.len() {
            return Err(Full);
        }
        self.slots[self.len] = x;
        self.len += 1;
        Ok(())
    }

    // The newest element, or none exactly if there is none.
    pub fn pop(&mut self) -> Option<T>
        ensures does { Popped self.old result self.new }
        ensures lender { self.new.slots.ghost_name ≡ self.old.slots.ghost_name }
    {
        self.len = self.len.checked_sub(1)?;
        Some(self.slots[self.len])
    }
}
