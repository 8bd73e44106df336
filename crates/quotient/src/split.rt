// The quotient split in units of a power of ten, and rounded to a whole number of them.
ghost use Rattle.std.specs.Prelude.{◌≡◌, ℕ, ◌/◌, ◌%◌, ◌^◌, ◌<◌, ◌≤◌, min};
ghost use Rattle.std.specs.Option.{option_map};
ghost use Rattle.rounding.specs.Rounding.{rounded_at};
ghost use Rattle.quotient.specs.Drafts.{Drafted, sticky};
ghost use Rattle.quotient.specs.Quotients.{decimal32};
ghost use Rattle.quotient.specs.Splits.{between, split_at};

use crate::types::{Leading, Split};
use rounding::{Mode, Position, Sign};

// Where (rest + f) / unit lies, for a fraction f that is 0 exactly where nothing is left.
fn locate(rest: u32, unit: u32, left: bool) -> Position
    requires { (rest < unit) × (unit ≤ 1000000000) }
    ensures { result ≡ sticky rest unit left }
{
    if 2 * rest < unit {
        if rest == 0 && !left {
            Position::Whole
        } else {
            Position::Below
        }
    } else if 2 * rest == unit && !left {
        Position::Middle
    } else {
        Position::Above
    }
}

// Ten to the number of digits that go; past nine it makes no difference. Each power stands as a number, since a division takes a third more
// time where `pow` computes it.
fn unit_of(gone: u16) -> u32
    requires { 1 ≤ gone }
    ensures value { result ≡ 10 ^ min gone 9 }
    ensures least { 10 ≤ result }
    ensures most { result ≤ 1000000000 }
{
    match gone {
        1 => 10,
        2 => 100,
        3 => 1_000,
        4 => 10_000,
        5 => 100_000,
        6 => 1_000_000,
        7 => 10_000_000,
        8 => 100_000_000,
        _ => 1_000_000_000,
    }
}

impl Split {
    /// The whole number that the mode makes of the magnitude under the sign.
    pub fn rounded(self, mode: Mode, sign: Sign) -> u32
        ensures { result ≡ rounded_at mode sign self.floor self.position }
    {
        self.floor + u32::from(mode.rounds_up(sign, self.floor % 2 == 1, self.position))
    }
}

impl Leading {
    // The leading digits split where so many of them go.
    pub(crate) fn cut(self, gone: u16) -> Split
        requires { 1 ≤ gone }
        ensures floor { result.floor ≡ self.digits / 10 ^ min gone 9 }
        ensures position { result.position ≡ sticky (self.digits % 10 ^ min gone 9) (10 ^ min gone 9) self.left }
    {
        let unit = unit_of(gone);
        let floor = self.digits / unit;
        // What is left by a product, since LLVM divides a second time for a remainder.
        let rest = self.digits - floor * unit;
        Split {
            floor,
            position: locate(rest, unit, self.left),
        }
    }

    /// The quotient in units of 10^-scale, or nothing where it is 10,000,000 of them or more. Whatever fraction n / d these leading
    /// digits are of, in units of the least exponent, the answer is the definition's at n / d.
    pub fn split_at(self, scale: u16) -> Option<Split>
        ensures { (n d : ℕ) → Drafted 104 self.digits self.left self.place n d → option_map between result ≡ split_at decimal32 scale n d }
    {
        if self.digits == 0 {
            return Some(Split {
                floor: 0,
                position: Position::Whole,
            });
        }
        let end = 205 - scale.min(101);
        if self.place >= end {
            return None;
        }
        Some(self.cut(end - self.place))
    }
}
