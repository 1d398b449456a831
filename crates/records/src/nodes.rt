// What stands at the nodes of a record.
ghost use Rattle.std.specs.Prelude.{◌≡◌, ℕ, ◌<◌, ◌≤◌};
ghost use Rattle.records.specs.Cells.{cell_at, Alike, Reached};

use crate::cells::Record;

// What may stand at a node.
pub trait Node: Copy {
    // What stands at a node that is not in use: it is alone, and nothing is known of it.
    ghost own: { ℕ → Self };

    fn alone(node: u16) -> Self
        ensures { result ≡ own node };
}

impl<C: Node, const N: usize> Record<C, N> {
    // A record for a slot to lend: each node is alone.
    pub fn new() -> Record<C, N>
        ensures { result.used ≡ 0 }
    {
        Record {
            used: 0,
            cells: [C::alone(0); N],
        }
    }

    // What stands at a node.
    pub fn at(&self, node: u16) -> C
        requires { node < N }
        ensures { result ≡ cell_at C.own self.now node }
    {
        if node < self.used {
            self.cells[node as usize]
        } else {
            C::alone(node)
        }
    }

    // Takes the nodes below `end` into use, each as it stands.
    #[tactic(auto, using(crate::proofs::Reaching::reached))]
    pub fn reach(&mut self, end: u16)
        requires few { self.old.used ≤ N }
        requires within { end ≤ N }
        ensures { Reached C.own self.old self.new end }
    {
        self.whole();
        // The node's number is what is written, so it is counted.
        for node in self.used..end {
            self.cells[node as usize] = C::alone(node);
        }
        self.used = self.used.max(end);
    }

    // Makes it say what another says, whatever it held. The cells that are not in use there stay as they are.
    pub fn take_over(&mut self, other: &Record<C, N>)
        requires { other.now.used ≤ N }
        ensures { Alike C.own other.now self.new }
    {
        let used = other.used as usize;
        // As slices first: no part of an array of N cells is lent out of a record yet.
        let cells: &mut [C] = &mut self.cells;
        let others: &[C] = &other.cells;
        cells[0..used].copy_from_slice(&others[0..used]);
        self.used = other.used;
    }
}
