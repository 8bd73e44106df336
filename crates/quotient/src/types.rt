// A quotient by its leading digits, split at a unit, and rounded.
ghost use Rattle.std.specs.Prelude.{◌+◌, ◌<◌, ◌≤◌, if◌then◌else◌};

use rounding::{Flags, Position};

/// The quotient (digits + f) x 10^(place - 205) for a fraction f of at least 0 and below 1, which is 0 exactly where nothing
/// is left. It has eight digits, or is 0. `left` guards no value, so it is no option: the digits stand either way.
#[derive(Clone, Copy)]
pub struct Leading {
    pub digits: u32,
    pub left: bool,
    pub place: u16,
    ghost least: { (0 < digits → 10000000 ≤ digits) },
    ghost most: { digits + (if left then 1 else 0) + 10 ≤ 100000000 },
    ghost far: { place ≤ 395 },
}

/// A magnitude between two whole numbers: the one under it, of at most seven digits, and where it lies above that.
#[derive(Clone, Copy)]
pub struct Split {
    pub floor: u32,
    pub position: Position,
    ghost small: { floor < 10000000 },
}

/// A coefficient with its exponent, which is written from 0: 101 more than it is.
#[derive(Clone, Copy)]
pub enum Magnitude {
    Finite(u32, u16),
    Infinite,
}

/// What a rounding gives, and the exceptions that it raises.
#[derive(Clone, Copy)]
pub struct Rounded {
    pub magnitude: Magnitude,
    pub flags: Flags,
}
