// Rows of at most N elements that lie where they are declared: what a Vec is where nothing may be allocated. They are copied as a whole, which
// the kit's ArrayVec is not. `Row` is for every N. `ShortRow` is for N below 65,536, and the one to take where there are many.
#![tactic(auto)]

ghost use Rattle.std.specs.Prelude.{◌≡◌, ◌<◌, ◌≤◌, ⊤, length};

pub mod calls;
pub mod short;

use std::alloc::AllocError;

// The first `len` of the places are in use.
pub struct Row<T, const N: usize> {
    places: [T; N],
    len: usize,
    ghost whole: { length places ≡ N },
    ghost few: { len ≤ N },
}

// By hand, since none is derived for a struct with a type parameter and a ghost field.
impl<T: Copy, const N: usize> Clone for Row<T, N> {
    ghost is_clone = { λ x y. y ≡ x };

    ghost is_infallible = { λ _. ⊤ };

    fn clone(&self) -> Result<Row<T, N>, AllocError> {
        Ok(*self)
    }
}

impl<T: Copy, const N: usize> Copy for Row<T, N> {}

// A row that counts in two bytes. Every goal of a book and every node of a search holds such rows: with eight, a goal would have 48 bytes in place
// of 26.
pub struct ShortRow<T, const N: usize> {
    places: [T; N],
    len: u16,
    ghost short: { N < 65536 },
    ghost whole: { length places ≡ N },
    ghost few: { len ≤ N },
}

// By hand, as that of `Row`.
impl<T: Copy, const N: usize> Clone for ShortRow<T, N> {
    ghost is_clone = { λ x y. y ≡ x };

    ghost is_infallible = { λ _. ⊤ };

    fn clone(&self) -> Result<ShortRow<T, N>, AllocError> {
        Ok(*self)
    }
}

impl<T: Copy, const N: usize> Copy for ShortRow<T, N> {}
