// A decimal32 number. The limits of a coefficient, an exponent and a payload are part of the types.
ghost use Rattle.std.specs.Prelude.{◌^◌, ◌<◌, pos, negsuc, ◌≤ℤ◌};

use rounding::Sign;

/// A finite number: sign and coefficient times ten to the exponent. Zeros have signs, and every exponent is kept.
#[derive(Clone, Copy)]
pub struct Finite {
    pub sign: Sign,
    pub coefficient: u32,
    pub exponent: i32,
    ghost limits: { (coefficient < 10 ^ 7) × (negsuc 100 ≤ℤ exponent) × (exponent ≤ℤ pos 90) },
}

/// What a NaN carries.
#[derive(Clone, Copy)]
pub struct Nan {
    pub sign: Sign,
    pub payload: u32,
    ghost limits: { payload < 10 ^ 6 },
}

#[derive(Clone, Copy)]
pub enum Number {
    Finite(Finite),
    Infinite(Sign),
    QuietNan(Nan),
    SignallingNan(Nan),
}
