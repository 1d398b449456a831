// Running a search.
ghost use Rattle.std.specs.Prelude.{◌≡◌, ◌+◌, ◌^◌, ◌<◌, true, false, cond, None};
ghost use Rattle.search.specs.Calls.{Good, NoneLeft, AdvanceDoes, MayRun, StopsBy, RunDoes, halt_at};

use super::refusal::{Halt, Refusal};
use super::{Outcome, Ran, Search};
use bank::Bank;
use frontier::{Stop, Tree, next_goal, step};

// Where it has ended, no tree is left.
fn end_if(tree: &mut Option<Tree>, ended: bool)
    ensures { tree.new ≡ cond ended None tree.old }
{
    if ended {
        *tree = None;
    }
}

impl<B: Bank> Search<B> {
    // One step of the machine.
    fn advance(&mut self) -> Result<(), Stop>
        requires posed { self.old.posed ≡ true }
        requires going { self.old.over ≡ false }
        requires empty { self.old.waiting ≡ None }
        requires near { self.old.steps + 1 < 2 ^ 32 }
        ensures does { AdvanceDoes B.Bank.view self.old result self.new }
        ensures none_left { NoneLeft B.Bank.view self.old self.new }
    {
        let tree = self.tree.as_mut().unwrap();
        let made = step(&self.book, &mut self.bank, &mut self.pool, tree)?;
        end_if(&mut self.tree, made.ended);
        self.waiting = made.answer;
        self.steps += 1;
        Ok(())
    }

    // Where a run stands that has made so many steps.
    fn halt(&self, steps: u32) -> Halt
        requires posed { self.now.posed ≡ true }
        requires going { self.now.over ≡ false }
        ensures { result ≡ halt_at self.now steps }
    {
        let tree = self.tree.as_ref().unwrap();
        Halt {
            steps,
            total: self.steps,
            line: self.book.line(next_goal(tree)),
        }
    }

    // Whether a run may begin.
    fn check_run(&self, budget: u32) -> Result<(), Refusal>
        ensures { MayRun self.now budget result }
    {
        if !self.posed {
            return Err(Refusal::NothingPosed);
        }
        if self.waiting.is_some() {
            return Err(Refusal::AnswerWaits);
        }
        if self.steps.checked_add(budget).is_none() {
            return Err(Refusal::TooManySteps);
        }
        Ok(())
    }

    // Why a run stops that has made so many steps of its budget, if it does.
    fn outcome(&self, steps: u32, budget: u32) -> Option<Outcome>
        ensures { StopsBy self.now steps budget result }
    {
        if let Some(x) = self.waiting {
            return Some(Outcome::Answer(x));
        }
        if self.tree.is_none() {
            return Some(Outcome::Exhausted);
        }
        if steps == budget {
            return Some(Outcome::Spent);
        }
        None
    }

    // What a run says that has made so many steps.
    fn ran(&self, outcome: Outcome, steps: u32) -> Ran
        ensures { result ≡ record { outcome = outcome; steps = steps; total = self.now.steps } }
    {
        let total = self.steps;
        Ran {
            outcome,
            steps,
            total,
        }
    }

    // Up to `budget` steps, until an answer comes or nothing is left.
    pub fn run(&mut self, budget: u32) -> Result<Ran, Refusal>
        ensures good { Good B.Bank.view self.new }
        ensures does { RunDoes B.Bank.view self.old budget result self.new }
        ensures none_left { NoneLeft B.Bank.view self.old self.new }
    {
        self.holds();
        self.check_run(budget)?;
        let mut steps = 0;
        loop {
            if let Some(outcome) = self.outcome(steps, budget) {
                self.holds();
                return Ok(self.ran(outcome, steps));
            }
            match self.advance() {
                Ok(()) => steps += 1,
                Err(stop) => {
                    self.holds();
                    return Err(Refusal::halted(stop, self.halt(steps)));
                }
            }
        }
    }
}
