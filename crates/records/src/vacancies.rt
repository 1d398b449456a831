// The numbers of a bank's idle slots.
ghost use Rattle.std.specs.Prelude.{◌≡◌, ℕ, ◌-◌, ◌<◌, ◌≤◌, [], ◌∷◌, ◌++◌, Some, length, slice_index};
ghost use Rattle.row.specs.Items.{Last};
ghost use Rattle.records.specs.Vacant.{vacant, Fits};

// The first `count` of the numbers, of which the last is taken next. It is no row, since a bank holds it beside lent slots: a struct of those
// two is not followed in its callers' hands where one has ghost fields. So what it keeps is asked and promised by each call, and a bank's type
// says it.
#[derive(Clone, Copy)]
pub struct Vacancies {
    numbers: [u16; 1024],
    count: u16,
}

impl Vacancies {
    // The numbers below `count`, the first of them last.
    pub fn new(count: u16) -> Vacancies
        requires { count ≤ 1024 }
        ensures fits { Fits result }
        ensures count { length (vacant result) ≡ count }
        ensures numbers { (i : ℕ) → i < count → slice_index (vacant result) i ≡ count - 1 - i }
    {
        Vacancies {
            numbers: numbered(count),
            count,
        }
    }

    // How many there are.
    pub fn len(&self) -> u16
        requires { Fits self.now }
        ensures { result ≡ length (vacant self.now) }
    {
        self.count
    }

    // The number that is taken next, if there is one.
    #[tactic(auto, using(crate::proofs::Vacant::last_is))]
    pub fn last(&self) -> Option<u16>
        requires { Fits self.now }
        ensures { Last (vacant self.now) result }
    {
        if self.count == 0 {
            return None;
        }
        Some(self.numbers[self.count as usize - 1])
    }

    // Takes it.
    pub(crate) fn pop(&mut self)
        requires fits { Fits self.old }
        requires some { 0 < length (vacant self.old) }
        ensures fits { Fits self.new }
        ensures popped { (x : ℕ) → Last (vacant self.old) (Some x) → vacant self.old ≡ vacant self.new ++ x ∷ [] }
    {
        self.count -= 1;
    }

    // One number more, which is taken next.
    pub(crate) fn push(&mut self, number: u16)
        requires fits { Fits self.old }
        requires room { length (vacant self.old) < 1024 }
        ensures fits { Fits self.new }
        ensures pushed { vacant self.new ≡ vacant self.old ++ number ∷ [] }
    {
        self.numbers[self.count as usize] = number;
        self.count += 1;
    }
}

// The numbers of so many slots, the first of them last, since numbers are taken from the end. What stands behind them means nothing.
pub fn numbered(count: u16) -> [u16; 1024]
    requires { count ≤ 1024 }
    ensures room { length result ≡ 1024 }
    ensures numbers { (i : ℕ) → i < count → slice_index result i ≡ count - 1 - i }
{
    let mut numbers = [0u16; 1024];
    for i in 0..count {
        numbers[i as usize] = count - 1 - i;
    }
    numbers
}
