// Worked examples: a table of small books, texts and tells with what becomes of each, every row of it proved.
#![tactic(auto)]

ghost use Rattle.book.specs.Language.{Each};
ghost use Rattle.worked.specs.Rows.{Holds};
ghost use Rattle.worked.specs.Table.{table};

// Every row of the table holds.
pub fn worked_examples_hold()
    ensures { Each Holds table }
{}
