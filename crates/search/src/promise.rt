// What holds of any two searches.
ghost use Rattle.std.specs.Prelude.{◌≡◌, min};
ghost use Rattle.search.specs.Promise.{Promise};

use super::Search;
use bank::Bank;

// The number of steps up to which the answers of two searches can be compared.
pub fn common_steps<A: Bank, B: Bank>(left: &Search<A>, right: &Search<B>) -> u32
    ensures promise { Promise A.Bank.view B.Bank.view left.now right.now }
    ensures least { result ≡ min left.now.steps right.now.steps }
{
    left.steps.min(right.steps)
}
