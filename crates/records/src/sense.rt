// What a record says, by its cells.
ghost use Rattle.std.specs.Prelude.{◌≡◌, ℕ, ◌<◌, ◌≤◌, List};
ghost use Rattle.bank.specs.Kinds.{Kind, Assignment, Solutions, all_admitted};
ghost use Rattle.texts.specs.Pieces.{Adds};
ghost use Rattle.records.specs.declared.cells.Record.{Record};
ghost use Rattle.records.specs.Cells.{Alike};

use crate::cells::Record;
use crate::nodes::Node;
use crate::stored::Stored;
use texts::Writer;

// What a record of N such cells says. A bank gives its cells this, and so has records that lent slots hold.
pub trait Sense<const N: usize>: Node {
    // How many variables a store has.
    const V: u16;

    ghost V: { ℕ };

    ghost kind: { Kind };

    ghost solutions: { Record Self N → Solutions };

    ghost text: { Record Self N → ℕ → List ℕ };

    ghost sound: { Record Self N → Type 0 };

    // Adds the text of a variable.
    fn write(r: &Record<Self, N>, var: u16, writer: &mut Writer)
        requires sound { ∥ sound r.now ∥₁ }
        requires within { var < V }
        ensures { Adds (text r.now var) writer.old writer.new };

    ghost few: { (r : Record Self N) → ∥ sound r ∥₁ → r.used ≤ N };

    // A record with no node in use has all solutions.
    ghost begins: { (r : Record Self N) → r.used ≡ 0 → sound r × ((σ : Assignment) → solutions r σ ≡ all_admitted kind V σ) };

    // One that says the same as another has the solutions of that one.
    ghost follows: { (r s : Record Self N) → Alike Self.own r s → ∥ sound r ∥₁ → sound s × ((σ : Assignment) → solutions s σ ≡ solutions r σ) };
}

impl<C: Sense<N>, const N: usize> Stored for Record<C, N> {
    const V: u16 = C::V;

    ghost V = { C.V };

    ghost kind = { C.kind };

    ghost solutions = { C.solutions };

    ghost text = { C.text };

    ghost sound = { C.sound };

    ghost alike = { Alike C.own };

    fn write(&self, var: u16, writer: &mut Writer) {
        C::write(self, var, writer);
    }

    fn clear(&mut self) {
        self.used = 0;
    }

    fn copy_from(&mut self, other: &Record<C, N>) {
        self.take_over(other);
    }
}
