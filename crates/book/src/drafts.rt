// The lines of a book as they were read, before they are joined to goals.
ghost use Rattle.std.specs.Prelude.{◌≡◌, ◌+◌, ◌≤◌, map, length};
ghost use Rattle.book.specs.Lists.{entry_of};
ghost use Rattle.book.specs.Reading.{heads};
ghost use Rattle.row.specs.Shorts.{items};

use line::{Line, ShortRow};

// A line with the number of slots in scope where it stands.
#[derive(Clone, Copy)]
pub struct Listed {
    pub line: Line,
    pub scope: u8,
}

#[derive(Clone, Copy)]
pub struct Draft {
    pub(crate) listed: ShortRow<Listed, 1088>,
    // How many parameters each rule has.
    pub(crate) params: ShortRow<u8, 64>,
    ghost headed: { items params ≡ heads (map entry_of (items listed)) },
    ghost few_goals: { length (items listed) ≤ length (items params) + 1024 },
}
