// What can be read of a book, with no check of an index.
ghost use Rattle.std.specs.Prelude.{◌≡◌, ◌+◌, ◌<◌, [], length, get_or, slice_index_or};
ghost use Rattle.book.specs.Language.{rule_at, size, total};
ghost use Rattle.book.specs.Listing.{IsBook};
ghost use Rattle.book.specs.Meaning.{nodes, book_nodes, book_rules, meaning};
ghost use Rattle.book.specs.Table.{blank, no_rule, rule_of, scope_at, line_at, Stands, Rooted};

use super::{Book, Form, Node, Rule, ShortRow, Table};

impl Table {
    // No goal yet.
    pub fn empty() -> Table
        ensures { nodes result ≡ [] }
    {
        let unused = Node {
            form: Form::New { goal: 0 },
            scope: 0,
            line: 0,
        };
        Table {
            goals: ShortRow::new(unused),
        }
    }
}

impl Book {
    // The book of no rules.
    pub fn empty() -> Book
        ensures rules { book_rules result ≡ [] }
        ensures nodes { book_nodes result ≡ [] }
    {
        Book {
            table: Table::empty(),
            rules: ShortRow::new(Rule { params: 0, goal: 0 }),
        }
    }

    // How many rules there are. Whatever the book: it is within the limits, and well formed.
    #[tactic(auto, using(crate::proofs::Every::every_book, crate::proofs::Walks::rules_length))]
    pub fn rule_count(&self) -> usize
        ensures rules { result ≡ length (book_rules self.now) }
        ensures means { result ≡ length (meaning self.now) }
        ensures well { IsBook (meaning self.now) }
    {
        self.rules.len()
    }

    // How many goals all rules have together.
    #[tactic(auto, using(crate::proofs::Every::goals_all))]
    pub fn goal_count(&self) -> usize
        ensures nodes { result ≡ length (book_nodes self.now) }
        ensures means { result ≡ total (meaning self.now) }
    {
        self.table.goals.len()
    }

    // A rule: how many parameters it has, and where its goal is.
    #[tactic(auto, using(crate::proofs::Every::rooted_in, crate::proofs::Every::meant_in))]
    pub fn rule(&self, r: usize) -> Rule
        requires { r < length (book_rules self.now) }
        ensures value { result ≡ slice_index_or (book_rules self.now) r no_rule }
        ensures rooted { Rooted (book_nodes self.now) result }
        ensures means { rule_at (meaning self.now) r ≡ rule_of (book_nodes self.now) result }
    {
        self.rules.as_slice()[r]
    }

    // What a goal is, with the goals below it.
    pub fn form(&self, goal: u16) -> Form
        requires { goal < length (book_nodes self.now) }
        ensures value { result ≡ (get_or (book_nodes self.now) goal blank).form }
        ensures stands { Stands (book_rules self.now) (book_nodes self.now) goal result }
    {
        self.node(goal).form
    }

    // How many slots are in scope of a goal.
    pub fn scope(&self, goal: u16) -> u8
        requires { goal < length (book_nodes self.now) }
        ensures { result ≡ scope_at (book_nodes self.now) goal }
    {
        self.node(goal).scope
    }

    // The line on which a goal is written.
    pub fn line(&self, goal: u16) -> u16
        requires { goal < length (book_nodes self.now) }
        ensures { result ≡ line_at (book_nodes self.now) goal }
    {
        self.node(goal).line
    }

    // How many goals a rule has: they are written between it and the next rule.
    pub fn goals_of(&self, r: usize) -> usize
        requires { r < length (book_rules self.now) }
        ensures { result ≡ size (rule_at (meaning self.now) r).goal }
    {
        let first = self.line(self.rule(r).goal) as usize;
        self.end_of(r) - first
    }

    // The line behind the goal of a rule: the next rule, or the end of the text.
    #[tactic(auto, using(crate::proofs::Every::size_between, crate::proofs::Every::size_last, crate::proofs::Every::next_below))]
    fn end_of(&self, r: usize) -> usize
        requires { r < length (book_rules self.now) }
        ensures { result ≡ line_at (book_nodes self.now) (get_or (book_rules self.now) r no_rule).goal + size (rule_at (meaning self.now) r).goal }
    {
        if r + 1 < self.rule_count() {
            self.line(self.rule(r + 1).goal) as usize - 1
        } else {
            self.rule_count() + self.goal_count() + 1
        }
    }

    #[tactic(auto, using(crate::proofs::Every::stands_in))]
    fn node(&self, goal: u16) -> Node
        requires { goal < length (book_nodes self.now) }
        ensures value { result ≡ slice_index_or (book_nodes self.now) goal blank }
        ensures stands { Stands (book_rules self.now) (book_nodes self.now) goal result.form }
    {
        self.table.goals.as_slice()[goal as usize]
    }
}
