// Writes texts into a lent part, one piece after another.
#![tactic(auto)]

ghost use Rattle.std.specs.Prelude.{◌≡◌, ◌+◌, ◌%◌, not, [], ◌∷◌, length, replicate, decimal as digits};
ghost use Rattle.std.specs.Option.{is_some};
ghost use Rattle.std.specs.Fmt.{signed_decimal};

// A piece is added up to where the last one ended, and once there was no room nothing more is written: so a chain of calls needs no check
// between them. No `fmt::Write`: behind an `Err` of `write!` a proof knows nothing of the part, and a bank is exact there too.
#[derive(Drop)]
pub struct Writer<'a> {
    part: &'a mut [u8],
    // Where the next piece begins, or none once there was no room.
    end: Option<usize>,
}

impl<'a> Writer<'a> {
    ghost use Rattle.texts.specs.Pieces.{Adds, Begun, Ends};

    // Before the first piece, at the front of the part.
    pub fn new(part: &'a mut [u8]) -> Writer<'a>
        ensures lender { result.part.ghost_name ≡ part.entry.ghost_name }
        ensures begun { Begun part.old result }
    {
        Writer { part, end: Some(0) }
    }

    // Behind what stands before `end` already, or, without an end, behind a piece that found no room.
    pub fn resume(part: &'a mut [u8], end: Option<usize>) -> Writer<'a>
        ensures lender { result.part.ghost_name ≡ part.entry.ghost_name }
        ensures holds { result.part.now ≡ part.old }
        ensures end { result.end ≡ end }
    {
        Writer { part, end }
    }

    // Adds a byte, unless there is no room.
    pub fn put(&mut self, byte: u8)
        ensures { Adds (byte ∷ []) self.old self.new }
    {
        if let Some(n) = self.end {
            // By index: a proof does not follow what `get_mut` lends out of a lent part.
            if n < self.part.len() {
                self.part[n] = byte;
                self.end = Some(n + 1);
            } else {
                self.end = None;
            }
        }
    }

    // Adds a number in decimal.
    pub fn put_decimal(&mut self, n: u32)
        ensures { Adds (digits n) self.old self.new }
    {
        if n >= 10 {
            self.put_decimal(n / 10);
        }
        self.put(last_digit(n));
    }

    // Adds a byte, and then a number in decimal.
    pub fn put_after(&mut self, byte: u8, n: u32)
        ensures { Adds (byte ∷ digits n) self.old self.new }
    {
        self.put(byte);
        self.put_decimal(n);
    }

    // Adds a number in decimal, after `-` if it is negative.
    pub fn put_signed(&mut self, k: i32)
        ensures { Adds (signed_decimal k) self.old self.new }
    {
        let n = k.unsigned_abs();
        if k < 0 {
            self.put_after(b'-', n);
        } else {
            self.put_decimal(n);
        }
    }

    // Whether the text found no room.
    pub fn overruns(&self) -> bool
        ensures { result ≡ not (is_some self.now.end) }
    {
        self.end.is_none()
    }

    // How long the text is, or none if there was no room: then nothing of it is left, and the whole part is zero.
    pub fn finish(self) -> Option<usize>
        ensures { Ends self.entry result self.exit.0.now }
    {
        if self.overruns() {
            clear(self.part);
        }
        self.end
    }
}

fn last_digit(n: u32) -> u8
    ensures { result ≡ 48 + n % 10 }
{
    b'0' + (n % 10) as u8
}

// Makes the whole part zero.
pub fn clear(part: &mut [u8])
    ensures { part.new ≡ replicate (length part.old) 0 }
{
    part.fill(0);
}
