// The interface of a bank of stores: what each bank means, what its calls do, and the laws that it shows.
#![tactic(auto)]

ghost use Rattle.std.specs.Prelude.{◌≡◌, length};
ghost use Rattle.bank.specs.Calls.{Opens, Forks, Tells, Releases, Prints};
ghost use Rattle.bank.specs.Conditions.{condition, listed, Checks};
ghost use Rattle.bank.specs.Kinds.{all_below};
ghost use Rattle.bank.specs.Numbers.{number};
ghost use Rattle.bank.specs.Views.{View};

// The variables of a constraint, in order. An enum and no row, since a pattern then says how many there are.
#[derive(Clone, Copy)]
pub enum Vars {
    Zero,
    One(u16),
    Two(u16, u16),
    Three(u16, u16, u16),
}

impl Vars {
    fn count(&self) -> u8
        ensures { result ≡ length (listed self.now) }
    {
        match self {
            Vars::Zero => 0,
            Vars::One(_) => 1,
            Vars::Two(_, _) => 2,
            Vars::Three(_, _, _) => 3,
        }
    }

    // Whether each of them is below `n`.
    fn all_below(&self, n: u16) -> bool
        ensures { result ≡ all_below n (listed self.now) }
    {
        match *self {
            Vars::Zero => true,
            Vars::One(x) => x < n,
            Vars::Two(x, y) => x < n && y < n,
            Vars::Three(x, y, z) => x < n && y < n && z < n,
        }
    }
}

// Which constraint, its number, and the variables that it speaks of. Any of these can be told; a bank refuses what it does not know.
#[derive(Clone, Copy)]
pub struct Constraint {
    pub code: u8,
    pub k: i32,
    pub vars: Vars,
}

impl Constraint {
    // Whether its code takes as many variables as it has, its number is in range, and each variable is one of the first `variables`.
    pub fn check(&self, arity: Option<u8>, variables: u16) -> Result<(), Refusal>
        ensures { Checks arity variables (condition self.now) result }
    {
        if arity != Some(self.vars.count()) || self.k.unsigned_abs() > 1000 {
            return Err(Refusal::BadConstraint);
        }
        if !self.vars.all_below(variables) {
            return Err(Refusal::BadVariable);
        }
        Ok(())
    }
}

// Why a bank did not do what it was asked, with the number by which this is known outside.
#[derive(Clone, Copy, PartialEq, Eq, Debug)]
pub enum Refusal {
    NotLive = 32,
    NoSpare = 31,
    BadConstraint = 34,
    BadVariable = 35,
    Contradiction = 33,
    TextTooLong = 36,
}

impl Refusal {
    // The number of the refusal.
    pub fn number(self) -> u8
        ensures { result ≡ number self }
    {
        self as u8
    }
}

// What telling did. `Kept` is said only where no solution was lost; a bank may leave it unsaid.
#[derive(Clone, Copy, PartialEq, Eq, Debug)]
pub enum Effect {
    Kept,
    Narrowed,
}

// A bank keeps stores. A store is a set of solutions, which telling narrows; it has V variables, the same in every store of the bank.
pub trait Bank {
    // How many variables a store has.
    const V: usize;

    // The kind of values, the number of variables, the meaning of a state, and the laws.
    ghost view: { View Self };

    // V, as generic code reads it: the contract ties it to the view. A constant can have no such clause where its `impl` has a lifetime, as
    // those of banks over lent slots have.
    fn variables() -> usize
        ensures { result ≡ view.variables };

    // How many variables a code takes, if it is known.
    fn knows(&self, code: u8) -> Option<u8>
        ensures { result ≡ view.kind.arity code };

    // How many more stores can be made.
    fn spare(&self) -> u16
        ensures { result ≡ (view.meaning self.now).spare };

    // A store with all solutions.
    fn open(&mut self) -> Result<u16, Refusal>
        ensures { Opens view.kind view.variables (view.meaning self.old) (view.meaning self.new) result };

    // A store with the solutions of another.
    fn fork(&mut self, store: u16) -> Result<u16, Refusal>
        ensures { Forks (view.meaning self.old) (view.meaning self.new) store result };

    // Leaves a store those of its solutions at which the constraint holds.
    fn tell(&mut self, store: u16, constraint: &Constraint) -> Result<Effect, Refusal>
        ensures { Tells view.kind view.variables (view.meaning self.old) (view.meaning self.new) store (condition constraint.now) result };

    // Ends a store.
    fn release(&mut self, store: u16) -> Result<(), Refusal>
        ensures { Releases (view.meaning self.old) (view.meaning self.new) store result };

    // Texts: what follows is all that a bank says of them.

    // Writes the text of a variable to the front of `part`, and answers its length.
    fn print(&self, store: u16, var: u16, part: &mut [u8]) -> Result<usize, Refusal>
        ensures { Prints view.variables (view.meaning self.now) store var part.old part.new result };
}
