// The reader: a text becomes a book, or is refused.
ghost use Rattle.std.specs.Prelude.{◌≡◌, [], OnErr};
ghost use Rattle.fields.specs.Cursor.{here, later};
ghost use Rattle.fields.specs.Cutting.{lines};
ghost use Rattle.line.specs.Reading.{outcome};
ghost use Rattle.book.specs.Drafts.{gathered, parsed, taken, placed_by, barred_by};
ghost use Rattle.book.specs.Meaning.{book_rules, book_nodes, meaning};
ghost use Rattle.book.specs.Reading.{start, check, reading, answered, ReadsBooks};

use super::Book;
use super::build::build;
use super::drafts::Draft;
use super::place::Gathering;
use super::refusal::{Barred, Cause, Refusal};
use fields::Fields;
use line::{Fault, read_line};

impl From<Fault> for Barred {
    ghost from_gives = { λ fault r. r ≡ barred_by fault };

    fn from(fault: Fault) -> Barred {
        match fault {
            Fault::UnknownWord => Barred::line(Cause::UnknownWord),
            Fault::FieldCount => Barred::line(Cause::FieldCount),
            Fault::BadNumber { field } => Barred {
                cause: Cause::BadNumber,
                field,
            },
        }
    }
}

impl<'a> Gathering<'a> {
    ghost use Rattle.book.specs.States.{state};

    // The line whose fields are next, in its place.
    fn take_line(&mut self, fields: &mut Fields) -> Result<(), Barred>
        ensures does { taken (state self.old) (outcome fields.old.given (here fields.old)) ≡ placed_by result (state self.new) }
        ensures behind { later fields.new ≡ later fields.old }
        ensures number { fields.new.line ≡ fields.old.line }
    {
        let line = read_line(fields)?;
        self.place(line)
    }
}

// All lines of the text, each in its place.
fn gather(text: &[u8]) -> Result<Draft, Refusal>
    ensures { gathered result ≡ check 1 start (lines text.now) }
{
    let mut scopes = [0u8; 1025];
    let mut gathering = Gathering::new(&mut scopes);
    let mut fields = Fields::new(text);
    while let Some(line) = fields.next_line() {
        gathering
            .take_line(&mut fields)
            .map_err(|barred| barred.at(line))?;
    }
    if gathering.awaited.is_empty() {
        return Ok(gathering.draft);
    }
    Err(Barred::line(Cause::TextEnds).at(gathering.draft.listed.len() + 1))
}

// The book that a text is, by its lines and then by its calls.
#[tactic(auto, using(crate::proofs::Settling::reading_long, crate::proofs::Settling::reading_stopped, crate::proofs::Settling::reading_misfit, crate::proofs::Settling::reading_book))]
fn parse(text: &[u8]) -> Result<Book, Refusal>
    ensures { parsed result ≡ reading text.now }
{
    if text.len() > 65536 {
        return Err(Refusal {
            cause: Cause::TextTooLong,
            line: 0,
            field: 0,
        });
    }
    let draft = gather(text)?;
    draft.check_calls()?;
    Ok(build(&draft))
}

impl Book {
    // Fills the book from `text`, if this is a book. A refusal says what is wrong and where, and leaves the book empty.
    #[tactic(auto, using(crate::proofs::Law::reads_books))]
    pub fn read(&mut self, text: &[u8]) -> Result<(), Refusal>
        ensures does { answered result (meaning self.new) ≡ reading text.now }
        ensures law { ReadsBooks text.now (answered result (meaning self.new)) }
        ensures empty { OnErr result ((book_rules self.new ≡ []) × (book_nodes self.new ≡ [])) }
    {
        match parse(text) {
            Ok(book) => {
                *self = book;
                Ok(())
            }
            Err(refusal) => {
                *self = Book::empty();
                Err(refusal)
            }
        }
    }
}
