// Three digits in ten bits, by two tables. Each is tied to the bit rules by one computed test.
ghost use Rattle.std.specs.Prelude.{◌≡◌, ◌%◌, ◌<◌, true};
ghost use Rattle.decimal.specs.Declets.{declet_value, declet_of, canonical_declet};

use crate::tables::{DECLET_VALUES, DECLETS};

/// The number that the lowest ten bits of `declet` stand for.
pub fn read_declet(declet: u32) -> u32
    ensures value { result ≡ declet_value (declet % 1024) }
    ensures small { result < 1000 }
{
    DECLET_VALUES[(declet % 1024) as usize] as u32
}

/// The declet of the last three digits of `number`.
pub fn write_declet(number: u32) -> u32
    ensures value { result ≡ declet_of (number % 1000) }
    ensures small { result < 1024 }
    ensures same_digits { declet_value result ≡ number % 1000 }
    ensures canonical { canonical_declet result ≡ true }
{
    DECLETS[(number % 1000) as usize] as u32
}
