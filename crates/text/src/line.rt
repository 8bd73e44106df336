// One line of a text, in a fixed room: its number, from one, and as much of its bytes as any use of it needs.
ghost use Rattle.std.specs.Prelude.{◌≡◌, ℕ, ◌≤◌, List, [], ◌∷◌, ◌++◌, length, if◌then◌else◌, Some, None, nat_eq};
ghost use Rattle.text.specs.Lines.{first_known, next_known, known_with, known_after, known_in, lines_of};

use std::marker::Model;
use std::mem;

/// The first 33 bytes of a line tell every line of at most 32 bytes from the others. An array with a length, since an `ArrayVec` has no `Copy`.
#[derive(Clone, Copy)]
pub struct Line {
    number: u64,
    bytes: [u8; 33],
    len: usize,
}

impl Model for Line {
    ghost use Rattle.text.specs.Lines.{Known};

    ghost Value = { Known };

    ghost use Rattle.text.specs.Kept.{known, Padded, line_of, line_back};

    ghost view = { known };

    ghost invariant = { Padded };

    ghost inverse = { line_of };

    ghost inverse_ok = { line_back };
}

impl Line {
    /// The first line of a text, before any byte.
    pub fn first() -> Line
        ensures value { result ≡ first_known }
        ensures begins { result ≡ known_in (lines_of []) }
    {
        Line {
            number: 1,
            bytes: [0; 33],
            len: 0,
        }
    }

    // The line behind this one, before any byte.
    fn next(&self) -> Line
        ensures { result ≡ next_known self.now }
    {
        Line {
            number: self.number.saturating_add(1),
            bytes: [0; 33],
            len: 0,
        }
    }

    // One more byte, which is not kept behind 33 others.
    fn push(&mut self, byte: u8)
        ensures { self.new ≡ known_with self.old byte }
    {
        if self.len < 33 {
            self.bytes[self.len] = byte;
            self.len += 1;
        }
    }

    /// The text goes on with `byte`. Where that ends the line, the line comes back and the next one begins.
    pub fn take(&mut self, byte: u8) -> Option<Line>
        ensures line { result ≡ (if nat_eq byte 10 then Some self.old else None) }
        ensures after { self.new ≡ known_after self.old byte }
        ensures goes_on { (text : List ℕ) → self.old ≡ known_in (lines_of text) → self.new ≡ known_in (lines_of (text ++ (byte ∷ []))) }
    {
        if byte == b'\n' {
            let next = self.next();
            return Some(mem::replace(self, next));
        }
        self.push(byte);
        None
    }

    /// The line's number. That 33 bytes are kept at most is told with it.
    pub fn number(&self) -> u64
        ensures value { result ≡ self.now.number }
        ensures short { length self.now.text ≤ 33 }
    {
        self.number
    }

    /// The line's first 33 bytes, and that these are 33 at most.
    pub fn text(&self) -> &[u8]
        ensures value { result.now ≡ self.now.text }
        ensures short { length self.now.text ≤ 33 }
    {
        &self.bytes[..self.len]
    }
}
