// Numbers brought to seven digits.
ghost use Rattle.std.specs.Prelude.{◌≡◌, ◌<◌, ◌≤◌};
ghost use Rattle.divider.specs.Drafts.{Scaled, counted};

use decimal::Finite;

/// The number digits x 10^(exponent - zeros - 101), which has seven digits, or is 0.
#[derive(Clone, Copy)]
pub(crate) struct Normal {
    pub(crate) digits: u32,
    pub(crate) zeros: u16,
    pub(crate) exponent: u16,
    ghost least: { (0 < digits → 1000000 ≤ digits) },
    ghost most: { digits < 10000000 },
    ghost few: { zeros ≤ 6 },
    ghost far: { exponent ≤ 191 },
}

// A coefficient with zeros behind it, to seven digits, and how many zeros; a zero stays zero. Each power stands as a number, since a logarithm
// and a power take longer.
fn scale(coefficient: u32) -> (u32, u16)
    requires { coefficient < 10000000 }
    ensures { Scaled coefficient result.0 result.1 }
{
    match coefficient {
        0..=9 => (1_000_000 * coefficient, 6),
        10..=99 => (100_000 * coefficient, 5),
        100..=999 => (10_000 * coefficient, 4),
        1_000..=9_999 => (1_000 * coefficient, 3),
        10_000..=99_999 => (100 * coefficient, 2),
        100_000..=999_999 => (10 * coefficient, 1),
        _ => (coefficient, 0),
    }
}

impl Normal {
    // A number with zeros behind its coefficient.
    pub(crate) fn of(number: Finite) -> Normal
        ensures scaled { Scaled number.coefficient result.digits result.zeros }
        ensures exponent { result.exponent ≡ counted number.exponent }
    {
        let (digits, zeros) = scale(number.coefficient);
        Normal {
            digits,
            zeros,
            exponent: (number.exponent + 101) as u16,
        }
    }
}
