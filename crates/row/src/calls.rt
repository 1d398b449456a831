// The calls of a row.
ghost use Rattle.std.specs.Prelude.{◌≡◌, ◌<◌, ◌≤◌, [], ◌∷◌, ◌++◌, reverse, length, ◌==◌};
ghost use Rattle.row.specs.Items.{items, Last, Popped};

use super::Row;

impl<T: Copy, const N: usize> Row<T, N> {
    // An empty row. What a place holds that is not in use does not matter.
    pub fn new(blank: T) -> Row<T, N>
        ensures { items result ≡ [] }
    {
        Row {
            places: [blank; N],
            len: 0,
        }
    }

    pub fn len(&self) -> usize
        ensures counted { result ≡ length (items self.now) }
        ensures few { result ≤ N }
    {
        self.as_slice().len()
    }

    // Whether every place is in use.
    pub fn is_full(&self) -> bool
        ensures { result ≡ (length (items self.now) == N) }
    {
        self.len == N
    }

    // One element more, behind the others.
    pub fn push(&mut self, x: T)
        requires { length (items self.old) < N }
        ensures { items self.new ≡ items self.old ++ x ∷ [] }
    {
        self.places[self.len] = x;
        self.len += 1;
    }

    // Takes the last element off, if there is one.
    pub fn pop(&mut self) -> Option<T>
        ensures { Popped (items self.old) result (items self.new) }
    {
        if self.len == 0 {
            return None;
        }
        self.len -= 1;
        Some(self.places[self.len])
    }

    // The last element, if there is one.
    pub fn last(&self) -> Option<T>
        ensures { Last (items self.now) result }
    {
        if self.len == 0 {
            return None;
        }
        Some(self.places[self.len - 1])
    }

    // The same elements, the last one first.
    pub fn reverse(&mut self)
        ensures { items self.new ≡ reverse (items self.old) }
    {
        self.places[..self.len].reverse();
    }

    // The elements, in order.
    pub fn as_slice(&self) -> &[T]
        ensures { result.now ≡ items self.now }
    {
        &self.places[..self.len]
    }
}
