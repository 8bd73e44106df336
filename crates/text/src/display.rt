// Numbers and words, shown.
ghost use Rattle.std.specs.Prelude.{◌≡◌, Some};
ghost use Rattle.decimal.specs.Numbers.{datum};
ghost use Rattle.text.specs.Texts.{sign_text, number_text, word_text};

use decimal::Number;
use rounding::Sign;
use std::fmt;

/// Shows a number as `+125E-3`, `-0E-101`, `+inf`, `-nan(123)` or `+snan(0)`.
// A type of this crate: `decimal` has no text, so that each of its planted bugs is checked fast.
#[derive(Clone, Copy)]
pub struct NumberText(pub Number);

/// Shows a word as eight hexadecimal digits, in capitals.
// A type, so that `{:08X}` is proved once to write these digits.
#[derive(Clone, Copy)]
pub struct WordText(pub u32);

fn sign_text(sign: Sign) -> &'static str
    ensures { result.now ≡ sign_text sign }
{
    match sign {
        Sign::Plus => "+",
        Sign::Minus => "-",
    }
}

impl fmt::Display for NumberText {
    ghost output = { λ n. Some (number_text (datum n.0)) };

    fn fmt<W: fmt::Write>(&self, f: &mut fmt::Formatter<W>) -> fmt::Result {
        match self.0 {
            Number::Finite(n) => write!(f, "{}{}E{}", sign_text(n.sign), n.coefficient, n.exponent),
            Number::Infinite(sign) => write!(f, "{}inf", sign_text(sign)),
            Number::QuietNan(n) => write!(f, "{}nan({})", sign_text(n.sign), n.payload),
            Number::SignallingNan(n) => write!(f, "{}snan({})", sign_text(n.sign), n.payload),
        }
    }
}

impl fmt::Display for WordText {
    ghost output = { λ w. Some (word_text w.0) };

    fn fmt<W: fmt::Write>(&self, f: &mut fmt::Formatter<W>) -> fmt::Result {
        let word = self.0;
        write!(f, "{word:08X}")
    }
}
