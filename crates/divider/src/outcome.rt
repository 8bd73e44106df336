// What a division answers.
ghost use Rattle.std.specs.Prelude.{◌≡◌};
ghost use Rattle.divider.specs.Divisions.{outcome, word_outcome};

use decimal::{Number, write_word};
use rounding::Flags;

/// A quotient, and the exceptions that were raised.
#[derive(Clone, Copy)]
pub struct Quotient {
    pub number: Number,
    pub flags: Flags,
}

/// The word of a quotient, and the exceptions that were raised.
#[derive(Clone, Copy, PartialEq, Eq)]
pub struct QuotientWord {
    pub word: u32,
    pub flags: Flags,
}

impl From<Quotient> for QuotientWord {
    ghost from_gives = { λ quotient word. word ≡ word_outcome (outcome quotient) };

    fn from(quotient: Quotient) -> QuotientWord {
        QuotientWord {
            word: write_word(&quotient.number),
            flags: quotient.flags,
        }
    }
}
