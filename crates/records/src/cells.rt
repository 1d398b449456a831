// The record of a store.
ghost use Rattle.std.specs.Prelude.{◌≡◌, length};

// Only the cells below `used` count, so that the work on a store follows the nodes that it has met: every later node is alone, whatever the
// array holds. That `used` is at most N is no fact of the type, since a lent slot may hold any record.
#[derive(Clone, Copy)]
pub struct Record<C, const N: usize> {
    pub used: u16,
    pub cells: [C; N],
}

impl<C, const N: usize> Record<C, N> {
    // The array has N cells. Nothing to run: it shows when they are read as a slice.
    pub fn whole(&self)
        ensures { length self.now.cells ≡ N }
    {
        let _cells: &[C] = &self.cells;
    }
}
