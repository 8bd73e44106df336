// Words that are worked out by hand.
ghost use Rattle.std.specs.Prelude.{◌≡◌};
ghost use Rattle.decimal.specs.Worked.{WorkedWords, worked_words};

use crate::number::{Finite, Number};
use crate::words::write_word;
use rounding::Sign;

/// The words of 1E0, 9999999E90 and -125E-3. The definitions give the same by computation, with more lines of that kind.
pub fn worked_lines() -> [u32; 3]
    ensures words { result ≡ worked_words }
    ensures definitions { WorkedWords }
{
    let one = Finite {
        sign: Sign::Plus,
        coefficient: 1,
        exponent: 0,
    };
    let greatest = Finite {
        sign: Sign::Plus,
        coefficient: 9_999_999,
        exponent: 90,
    };
    let eighth = Finite {
        sign: Sign::Minus,
        coefficient: 125,
        exponent: -3,
    };
    [
        write_word(&Number::Finite(one)),
        write_word(&Number::Finite(greatest)),
        write_word(&Number::Finite(eighth)),
    ]
}
