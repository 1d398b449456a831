// The lines and fields of a rule book, as parts of its text.
#![tactic(auto)]

ghost use Rattle.std.specs.Prelude.{◌≡◌, ℕ, ◌+◌, ◌-◌, ◌<◌, ◌≤◌, true, false, [], length, take, ◌==◌, ◌≢◌, slice_index};
ghost use Rattle.std.specs.Iterator.{at_most};
ghost use Rattle.fields.specs.Cutting.{comma, lines, Whole};

// A field is a part of the text itself. Lines and fields count from 1.
#[derive(Clone, Copy)]
pub struct Field<'a> {
    pub bytes: &'a [u8],
    pub line: usize,
    pub number: usize,
}

// A place in a text, between two fields: `line` lines were begun, and `given` fields of the last of them were given.
#[derive(Clone, Copy)]
pub struct Fields<'a> {
    text: &'a [u8],
    pos: usize,
    // A field of the current line is still to come, and begins at `pos`. Between two lines `pos` counts too: so a flag beside it.
    inside: bool,
    line: usize,
    given: usize,
    ghost within: { pos ≤ length text.now },
    // Each line and field but the last has a byte that ends it, so the counts stay within the text's length.
    ghost counted: { inside ≡ true → line + given ≤ pos + 1 },
    ghost begun: { inside ≡ false → pos < length text.now → line ≤ pos },
}

impl<'a> Fields<'a> {
    ghost use Rattle.fields.specs.Cursor.{rest, here, later, Lined};

    // Before the first line of `text`, whose lines are all of it.
    #[tactic(auto, using(crate::proofs::Joining::ended_lines))]
    pub fn new(text: &'a [u8]) -> Fields<'a>
        ensures here { here result ≡ [] }
        ensures later { later result ≡ lines text.now }
        ensures line { result.line ≡ 0 }
        ensures whole { Whole text.now }
    {
        Fields {
            text,
            pos: 0,
            inside: false,
            line: 0,
            given: 0,
        }
    }

    // Moves to the next line, past what is left of this one, and answers its number.
    pub fn next_line(&mut self) -> Option<usize>
        ensures does { Lined self.old result self.new }
    {
        // No `for` over `by_ref`: behind it a proof knows nothing of the cursor.
        while let Some(_) = self.next() {}
        if self.is_at_end() {
            return None;
        }
        self.begin();
        Some(self.line)
    }

    fn is_at_end(&self) -> bool
        ensures { result ≡ (self.now.pos == length self.now.text.now) }
    {
        self.pos == self.text.len()
    }

    // Enters the line that begins at `pos`.
    fn begin(&mut self)
        requires between { self.old.inside ≡ false }
        requires more { self.old.pos < length self.old.text.now }
        ensures place { rest self.new ≡ rest self.old }
        ensures inside { self.new.inside ≡ true }
        ensures line { self.new.line ≡ self.old.line + 1 }
        ensures given { self.new.given ≡ 0 }
    {
        self.inside = true;
        self.line += 1;
        self.given = 0;
    }

    // Passes the field that ends at `end`, and the byte behind it, and gives the field.
    fn pass(&mut self, end: usize) -> Field<'a>
        requires inside { self.old.inside ≡ true }
        requires from { self.old.pos ≤ end }
        requires within { end ≤ length self.old.text.now }
        ensures bytes { result.bytes.now ≡ take (end - self.old.pos) (rest self.old) }
        ensures text { self.new.text.now ≡ self.old.text.now }
        ensures last { end ≡ length self.old.text.now → (self.new.pos ≡ end) × (self.new.inside ≡ false) }
        ensures more { end < length self.old.text.now → (self.new.pos ≡ end + 1) × (self.new.inside ≡ (slice_index self.old.text.now end == comma)) }
        ensures line { (self.new.line ≡ self.old.line) × (result.line ≡ self.old.line) }
        ensures number { (self.new.given ≡ self.old.given + 1) × (result.number ≡ self.old.given + 1) }
    {
        let text = self.text;
        self.given += 1;
        let field = Field {
            bytes: &text[self.pos..end],
            line: self.line,
            number: self.given,
        };
        match text.get(end) {
            Some(byte) => {
                self.pos = end + 1;
                self.inside = *byte == b',';
            }
            None => {
                self.pos = end;
                self.inside = false;
            }
        }
        field
    }

    // How many fields of this line are still to come.
    #[tactic(auto, using(crate::proofs::Counts::here_length, crate::proofs::Counts::runs_come))]
    pub fn left(&self) -> usize
        ensures { result ≡ length (here self.now) }
    {
        (*self).count()
    }
}

impl<'a> Iterator for Fields<'a> {
    ghost use Rattle.fields.specs.Cursor.{here, Given};

    type Item = Field<'a>;

    ghost next_gives = { Given };

    ghost remaining = { λ f. at_most (length (here f)) };

    // The next field of this line.
    fn next(&mut self) -> Option<Field<'a>> {
        if !self.inside {
            return None;
        }
        let end = self.pos + field_len(&self.text[self.pos..]);
        Some(self.pass(end))
    }
}

// How many bytes stand before the first comma or newline.
fn field_len(bytes: &[u8]) -> usize
    ensures within { result ≤ length bytes.now }
    ensures plain { (k : ℕ) → k < result → (slice_index bytes.now k ≢ 44) × (slice_index bytes.now k ≢ 10) }
    ensures stops { result < length bytes.now → (slice_index bytes.now result ≢ 44) → slice_index bytes.now result ≡ 10 }
{
    bytes
        .iter()
        .position(|b| matches!(b, b',' | b'\n'))
        .unwrap_or(bytes.len())
}
