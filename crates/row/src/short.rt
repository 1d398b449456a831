// The calls of a short row.
ghost use Rattle.std.specs.Prelude.{◌≡◌, ◌<◌, ◌≤◌, [], ◌∷◌, ◌++◌, reverse, take, length, ◌==◌};
ghost use Rattle.row.specs.Items.{Last, Popped};
ghost use Rattle.row.specs.Shorts.{items};

use super::ShortRow;

impl<T: Copy, const N: usize> ShortRow<T, N> {
    // An empty row. What a place holds that is not in use does not matter.
    pub fn new(blank: T) -> ShortRow<T, N>
        requires { N < 65536 }
        ensures { items result ≡ [] }
    {
        ShortRow {
            places: [blank; N],
            len: 0,
        }
    }

    // The first `len` of some places.
    pub fn of(places: [T; N], len: usize) -> ShortRow<T, N>
        requires short { N < 65536 }
        requires few { len ≤ N }
        ensures { items result ≡ take len places }
    {
        ShortRow {
            places,
            len: len as u16,
        }
    }

    pub fn len(&self) -> usize
        ensures counted { result ≡ length (items self.now) }
        ensures few { result ≤ N }
    {
        self.as_slice().len()
    }

    // Whether every place is in use.
    pub fn is_full(&self) -> bool
        ensures { result ≡ (length (items self.now) == N) }
    {
        self.len as usize == N
    }

    // One element more, behind the others.
    pub fn push(&mut self, x: T)
        requires { length (items self.old) < N }
        ensures { items self.new ≡ items self.old ++ x ∷ [] }
    {
        self.places[self.len as usize] = x;
        self.len += 1;
    }

    // Takes the last element off, if there is one.
    pub fn pop(&mut self) -> Option<T>
        ensures { Popped (items self.old) result (items self.new) }
    {
        if self.len == 0 {
            return None;
        }
        self.len -= 1;
        Some(self.places[self.len as usize])
    }

    // The last element, if there is one.
    pub fn last(&self) -> Option<T>
        ensures { Last (items self.now) result }
    {
        if self.len == 0 {
            return None;
        }
        Some(self.places[self.len as usize - 1])
    }

    // The same elements, the last one first.
    pub fn reverse(&mut self)
        ensures { items self.new ≡ reverse (items self.old) }
    {
        self.places[..self.len as usize].reverse();
    }

    // The elements, in order.
    pub fn as_slice(&self) -> &[T]
        ensures { result.now ≡ items self.now }
    {
        &self.places[..self.len as usize]
    }
}
