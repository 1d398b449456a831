// One line after another finds its place in a draft.
ghost use Rattle.std.specs.List.{position_from};
ghost use Rattle.std.specs.Prelude.{IfSome, not, nat_lt, ◌≡◌, ◌+◌, ◌<◌, ◌≤◌, [], ◌∷◌, ◌++◌, length, Ok, Err, OnErr};
ghost use Rattle.book.specs.Drafts.{entries, rules, goals, state_of, opened, opened_by, strayed, placed_by};
ghost use Rattle.book.specs.Reading.{start, stray, heads, place_rule_lem, place_goal_lem, place};
ghost use Rattle.line.specs.Says.{says};
ghost use Rattle.stack.specs.Items.{items, room};

use super::drafts::{Draft, Listed};
use super::refusal::{Barred, Cause};
use line::{Line, ShortRow};
use stack::Stack;

// The lines so far, and the goals that are awaited, each by its scope: the newest stands first in the text.
#[derive(Drop)]
pub(crate) struct Gathering<'a> {
    pub(crate) draft: Draft,
    pub(crate) awaited: Stack<'a, u8>,
    ghost wide: { room awaited ≡ 1025 },
    ghost few: { length (items awaited) ≤ goals draft + 1 },
}

// The place of the first slot that is not in scope.
fn first_stray(slots: &[u8], scope: u8) -> Option<usize>
    ensures first { result ≡ position_from (λ x. not (nat_lt x scope)) 0 slots.now }
    ensures within { IfSome result (λ j. j < length slots.now) }
{
    slots.iter().position(|slot| *slot >= scope)
}

// The slots are in scope. `before` is the number of the field before them.
#[tactic(auto, using(crate::proofs::Strays::stray_none, crate::proofs::Strays::stray_some))]
fn in_scope(slots: &[u8], scope: u8, before: usize) -> Result<(), Barred>
    requires { before ≤ 3 }
    ensures cause { elim result [ Ok u ↦ Unit {0} | Err b ↦ b.cause ≡ Cause.NotInScope ] }
    ensures field { strayed result ≡ stray scope before slots.now }
{
    match first_stray(slots, scope) {
        None => Ok(()),
        Some(j) => Err(Barred {
            cause: Cause::NotInScope,
            field: before + j + 1,
        }),
    }
}

// What is awaited after a line that stands where a goal with `scope` slots was awaited.
fn open_below(awaited: &mut Stack<u8>, line: Line, scope: u8) -> Result<(), Barred>
    requires room { length (items awaited.old) + 1 < room awaited.old }
    ensures does { opened (says line) scope (items awaited.old) ≡ opened_by result (items awaited.new) }
    ensures room { room awaited.new ≡ room awaited.old }
    ensures few { length (items awaited.new) ≤ length (items awaited.old) + 2 }
    ensures kept { OnErr result (items awaited.new ≡ items awaited.old) }
{
    match line {
        Line::Rule { .. } => Err(Barred::line(Cause::RuleTooEarly)),
        Line::Tell(tell) => in_scope(tell.slots.as_slice(), scope, 3),
        Line::And | Line::Or => {
            awaited.push(scope).unwrap();
            awaited.push(scope).unwrap();
            Ok(())
        }
        Line::New => {
            if scope >= 16 {
                return Err(Barred::line(Cause::TooManySlots));
            }
            awaited.push(scope + 1).unwrap();
            Ok(())
        }
        Line::Call(call) => in_scope(call.slots.as_slice(), scope, 2),
    }
}

impl Draft {
    // No line yet.
    pub(crate) fn empty() -> Draft
        ensures { state_of result [] ≡ start }
    {
        let none = Listed {
            line: Line::New,
            scope: 0,
        };
        Draft {
            listed: ShortRow::new(none),
            params: ShortRow::new(0),
        }
    }

    // How many of the lines are goals.
    #[tactic(auto, using(crate::proofs::Built::rules_few))]
    fn goals(&self) -> usize
        ensures { result ≡ goals self.now }
    {
        self.listed.len() - self.params.len()
    }

    // A goal line behind the others.
    fn add_goal(&mut self, line: Line, scope: u8)
        requires few { goals self.old < 1024 }
        requires goal { heads (record { says = says line; scope = scope } ∷ []) ≡ [] }
        ensures entries { entries self.new ≡ entries self.old ++ record { says = says line; scope = scope } ∷ [] }
        ensures counts { (rules self.new ≡ rules self.old) × (goals self.new ≡ goals self.old + 1) }
    {
        self.listed.push(Listed { line, scope });
    }

    // A rule line behind the others.
    fn add_rule(&mut self, params: u8)
        requires few { rules self.old < 64 }
        ensures entries { entries self.new ≡ entries self.old ++ record { says = says (Line.Rule params); scope = params } ∷ [] }
        ensures counts { (rules self.new ≡ rules self.old + 1) × (goals self.new ≡ goals self.old) }
    {
        self.listed.push(Listed {
            line: Line::Rule { params },
            scope: params,
        });
        self.params.push(params);
    }
}

impl<'a> Gathering<'a> {
    ghost use Rattle.book.specs.States.{state};

    // No line yet.
    pub(crate) fn new(scopes: &'a mut [u8]) -> Gathering<'a>
        requires { length scopes.old ≡ 1025 }
        ensures { state result ≡ start }
    {
        Gathering {
            draft: Draft::empty(),
            awaited: Stack::new(scopes),
        }
    }

    fn place_rule(&mut self, params: u8) -> Result<(), Barred>
        ensures { place_rule_lem (state self.old) params (items self.old.awaited) ≡ placed_by result (state self.new) }
    {
        if !self.awaited.is_empty() {
            return Err(Barred::line(Cause::RuleTooEarly));
        }
        if self.draft.params.is_full() {
            return Err(Barred::line(Cause::TooManyRules));
        }
        self.draft.add_rule(params);
        self.awaited.push(params).unwrap();
        Ok(())
    }

    fn place_goal(&mut self, line: Line) -> Result<(), Barred>
        ensures { place_goal_lem (state self.old) (says line) (items self.old.awaited) ≡ placed_by result (state self.new) }
    {
        let scope = self
            .awaited
            .pop()
            .ok_or(Barred::line(Cause::GoalNotAwaited))?;
        if self.draft.goals() >= 1024 {
            return Err(Barred::line(Cause::TooManyGoals));
        }
        open_below(&mut self.awaited, line, scope)?;
        self.draft.add_goal(line, scope);
        Ok(())
    }

    // One more line, or why it cannot stand here.
    pub(crate) fn place(&mut self, line: Line) -> Result<(), Barred>
        ensures { place (state self.old) (says line) ≡ placed_by result (state self.new) }
    {
        match line {
            Line::Rule { params } => self.place_rule(params),
            Line::Tell(_) | Line::And | Line::Or | Line::New | Line::Call(_) => self.place_goal(
                line,
            ),
        }
    }
}
