// A field of an entry line, and the number that it says.
ghost use Rattle.std.specs.Prelude.{◌≡◌};
ghost use Rattle.refusals.specs.declared.Refusal.TheVariants.{NotANumber};
ghost use Rattle.entries.specs.Fields.{behind_blanks, numeral_in, said, unused};

use refusals::{Fault, Refusal};
use text::read_number;

/// A field of an entry line: its bytes, and the first of its columns.
#[derive(Clone, Copy)]
pub struct Field<'a> {
    pub text: &'a [u8],
    pub column: usize,
}

/// What a field says: a whole number by its magnitude, with a minus or without, which a zero may have too.
#[derive(Clone, Copy)]
pub struct Numeral {
    pub negative: bool,
    pub magnitude: u32,
}

// A text without the blanks in front.
fn without_blanks(text: &[u8]) -> &[u8]
    ensures { result.now ≡ behind_blanks text.now }
{
    let mut rest = text;
    while let [b' ', behind @ ..] = rest {
        rest = behind;
    }
    rest
}

// Digits, with or without a minus directly in front.
fn read_numeral(text: &[u8]) -> Option<Numeral>
    ensures { result ≡ numeral_in text.now }
{
    let (negative, digits) = match text {
        [b'-', digits @ ..] => (true, digits),
        _ => (false, text),
    };
    Some(Numeral {
        negative,
        magnitude: read_number(digits)?,
    })
}

impl Field<'_> {
    // What is wrong with the field, where it is no number or is not blank.
    fn fault(&self) -> Fault
        ensures refusal { result.refusal ≡ NotANumber }
        ensures place { result.place ≡ self.now.column }
    {
        Fault {
            refusal: Refusal::NotANumber,
            place: self.column,
        }
    }

    /// The number that the field says, to the right of blanks. Refuses a field that says none.
    pub fn numeral(&self) -> Result<Numeral, Fault>
        ensures { result ≡ said self.now.column self.now.text.now }
    {
        read_numeral(without_blanks(self.text)).ok_or(self.fault())
    }

    /// Is the field blank, as a field that is not used has to be? Refuses one that is not.
    pub fn is_unused(&self) -> Result<(), Fault>
        ensures { result ≡ unused self.now.column self.now.text.now }
    {
        match without_blanks(self.text) {
            [] => Ok(()),
            _ => Err(self.fault()),
        }
    }
}
