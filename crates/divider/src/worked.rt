// Lines that are worked out by hand.
ghost use Rattle.std.specs.Prelude.{◌≡◌};
ghost use Rattle.divider.specs.Divisions.{word_quotient};
ghost use Rattle.divider.specs.Worked.{WorkedLines, worked_words};

use crate::divide::divide_words;
use crate::outcome::QuotientWord;
use crate::pair::Pair;
use reciprocal::TWO_LAYERS;
use rounding::Mode;

// The quotient of two words over two layers on the three-digit table.
fn quotient_of(mode: Mode, dividend: u32, divisor: u32) -> QuotientWord
    ensures { result ≡ word_quotient mode dividend divisor }
{
    divide_words(&TWO_LAYERS, mode, Pair { dividend, divisor }).unwrap()
}

/// 1 / 3, 1E2 / 2, 1E90 / 1E-6, 1E90 / 1E-7, 9999999E-101 / 10 and 1E-101 / 2 to the nearest, ties to even; and 1E-101 / 2 with ties away from zero.
/// The definitions give the same by computation, with more lines of that kind.
pub fn worked_lines() -> [QuotientWord; 7]
    ensures words { result ≡ worked_words }
    ensures definitions { WorkedLines }
{
    [
        quotient_of(Mode::NearestEven, 0x2250_0001, 0x2250_0003),
        quotient_of(Mode::NearestEven, 0x2270_0001, 0x2250_0002),
        quotient_of(Mode::NearestEven, 0x43F0_0001, 0x21F0_0001),
        quotient_of(Mode::NearestEven, 0x43F0_0001, 0x21E0_0001),
        quotient_of(Mode::NearestEven, 0x6403_FCFF, 0x2250_0010),
        quotient_of(Mode::NearestEven, 0x0000_0001, 0x2250_0002),
        quotient_of(Mode::NearestAway, 0x0000_0001, 0x2250_0002),
    ]
}
