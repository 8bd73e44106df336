// The quotient rounded to decimal32, once. A mode and a sign go side by side and not as one value: the caller sets the mode and the
// quotient has the sign, so that a pair of them would be made for each call and taken apart in it.
ghost use Rattle.std.specs.Prelude.{◌≡◌, ℕ, ◌+◌, ◌-◌, ◌^◌, ◌<◌, ◌≤◌, nat_lt};
ghost use Rattle.rounding.specs.Flags.{no_flags};
ghost use Rattle.quotient.specs.Drafts.{Cut, Drafted, InRange, Stripped};
ghost use Rattle.quotient.specs.Laws.{DefinitionStands};
ghost use Rattle.quotient.specs.Quotients.{decimal32, divided, finite, inexact_flags, to_infinity};
ghost use Rattle.quotient.specs.Quotients.{overflow as overflow_of};

use crate::types::{Leading, Magnitude, Rounded};
use rounding::{Flags, Mode, Sign};

// Brings the exponent of an exact number up to the ideal one, as far as zeros at its end allow.
fn strip(coefficient: u32, exponent: u16, ideal: u16) -> (u32, u16)
    requires { exponent ≤ 191 }
    ensures { Stripped 191 coefficient exponent ideal result.0 result.1 }
{
    let most = ideal.min(191);
    let mut c = coefficient;
    for k in exponent..most {
        if c % 10 != 0 {
            return (c, k);
        }
        c /= 10;
    }
    (c, exponent.max(most))
}

// Does what is past the greatest number go to infinity?
fn goes_to_infinity(mode: Mode, sign: Sign) -> bool
    ensures { result ≡ to_infinity mode sign }
{
    !matches!(
        (mode, sign),
        (Mode::Ceiling, Sign::Minus) | (Mode::Floor, Sign::Plus) | (Mode::TowardZero, _)
    )
}

fn overflow(mode: Mode, sign: Sign) -> Rounded
    ensures { result ≡ overflow_of decimal32 mode sign }
{
    let magnitude = if goes_to_infinity(mode, sign) {
        Magnitude::Infinite
    } else {
        Magnitude::Finite(9_999_999, 191)
    };
    Rounded {
        magnitude,
        flags: Flags {
            inexact: true,
            overflow: true,
            ..Flags::none()
        },
    }
}

// A number that needed no rounding.
fn exactly(coefficient: u32, exponent: u16) -> Rounded
    ensures { result ≡ finite coefficient exponent no_flags }
{
    Rounded {
        magnitude: Magnitude::Finite(coefficient, exponent),
        flags: Flags::none(),
    }
}

// The flags of a number that was rounded: inexact, and underflow where two digits or more went.
fn flags_of(gone: u16) -> Flags
    ensures { result ≡ inexact_flags (nat_lt 1 gone) }
{
    Flags {
        inexact: true,
        underflow: gone > 1,
        ..Flags::none()
    }
}

// How many of a quotient's digits go.
fn digits_cut(place: u16) -> u16
    requires { place ≤ 395 }
    ensures cut { Cut 104 place (place + result - 104) result }
    ensures small { result ≤ 104 }
{
    104_u16.saturating_sub(place).max(1)
}

impl Leading {
    /// The quotient rounded to decimal32. `ideal` is the ideal exponent and 101, or 0 if that is negative. Whatever fraction n / d
    /// these leading digits are of, in units of the least exponent, the answer is the definition's at n / d.
    pub fn round(self, mode: Mode, sign: Sign, ideal: u16) -> Rounded
        ensures value { (n d : ℕ) → Drafted 104 self.digits self.left self.place n d → result ≡ divided decimal32 mode sign n d ideal }
        ensures small { InRange result.magnitude }
        ensures definition { DefinitionStands }
    {
        if self.digits == 0 {
            return exactly(0, ideal.min(191));
        }
        let gone = digits_cut(self.place);
        let exponent = self.place + gone - 104;
        if exponent > 191 {
            return overflow(mode, sign);
        }
        let split = self.cut(gone);
        if split.position.is_whole() {
            let (c, k) = strip(split.floor, exponent, ideal);
            return exactly(c, k);
        }
        Rounded {
            magnitude: Magnitude::Finite(split.rounded(mode, sign), exponent),
            flags: flags_of(gone),
        }
    }
}
