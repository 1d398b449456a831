// What a store is made of.
ghost use Rattle.std.specs.Prelude.{◌≡◌, ◌<◌, ◌≤◌, ◌-ℤ◌, unsigned_abs};
ghost use Rattle.std.specs.Int.Signed.{mag};
ghost use Rattle.semitones.specs.Cells.{lone};

use records::Node;

// Where a node lies: its class, by the class's lowest node, and how far above that one.
#[derive(Clone, Copy)]
pub struct Cell {
    pub root: u16,
    pub by: i32,
}

impl Node for Cell {
    ghost own = { lone };

    fn alone(node: u16) -> Cell {
        Cell { root: node, by: 0 }
    }
}

// A store. Node 0 is the number 0, and node v + 1 the variable v.
pub type Record = records::Record<Cell, 257>;

// What a constraint says: node a lies k above node b.
#[derive(Clone, Copy)]
pub struct Edge {
    pub a: u16,
    pub b: u16,
    pub k: i32,
    ghost nodes: { (a < 257) × (b < 257) },
    ghost close: { unsigned_abs k ≤ 1000 },
}

impl Edge {
    // How far the root of node b lies above the root of node a, where the nodes lie a and b above their roots.
    pub fn gap(&self, a: i32, b: i32) -> i32
        requires far { (mag a ≤ 257000) × (mag b ≤ 257000) }
        ensures gap { result ≡ (a -ℤ b) -ℤ self.now.k }
        ensures little { mag result < 1000000 }
    {
        a - b - self.k
    }
}
