// What the calls over lent slots ask of the records there.
ghost use Rattle.std.specs.Prelude.{◌≡◌, ℕ, ◌<◌, List};
ghost use Rattle.bank.specs.Kinds.{Kind, Assignment, Solutions, all_admitted};
ghost use Rattle.texts.specs.Pieces.{Adds};

use texts::Writer;

// A record says which solutions a store has, and the texts of its variables. `sound` is what every store's record keeps.
pub trait Stored: Copy {
    // How many variables a store has.
    const V: u16;

    ghost V: { ℕ };

    ghost kind: { Kind };

    ghost solutions: { Self → Solutions };

    ghost text: { Self → ℕ → List ℕ };

    ghost sound: { Self → Type 0 };

    // What a copy has of the record that it is of.
    ghost alike: { Self → Self → Type 0 };

    // Adds the text of a variable.
    fn write(&self, var: u16, writer: &mut Writer)
        requires sound { ∥ sound self.now ∥₁ }
        requires within { var < V }
        ensures { Adds (text self.now var) writer.old writer.new };

    // Makes it a record with all solutions, whatever it held.
    fn clear(&mut self)
        ensures sound { sound self.new }
        ensures all { (σ : Assignment) → solutions self.new σ ≡ all_admitted kind V σ };

    // Makes it a record with the solutions of another, whatever it held.
    fn copy_from(&mut self, other: &Self)
        requires { ∥ sound other.now ∥₁ }
        ensures alike { alike other.now self.new }
        ensures sound { sound self.new }
        ensures same { (σ : Assignment) → solutions self.new σ ≡ solutions other.now σ };
}
