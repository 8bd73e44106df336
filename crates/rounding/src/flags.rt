// The exception flags of IEEE 754.
ghost use Rattle.std.specs.Prelude.{◌≡◌};
ghost use Rattle.rounding.specs.Flags.{flags_number, no_flags, raised_by_either};

/// Which exceptions an operation raised, or which stand raised. None is by default.
#[derive(Clone, Copy, PartialEq, Eq, Default)]
pub struct Flags {
    pub inexact: bool,
    pub underflow: bool,
    pub overflow: bool,
    pub division_by_zero: bool,
    pub invalid: bool,
}

impl Flags {
    /// No flag.
    pub fn none() -> Flags
        ensures { result ≡ no_flags }
    {
        Flags::default()
    }

    /// The flags that either raised.
    pub fn join(self, other: Flags) -> Flags
        ensures { result ≡ raised_by_either self other }
    {
        Flags {
            inexact: self.inexact || other.inexact,
            underflow: self.underflow || other.underflow,
            overflow: self.overflow || other.overflow,
            division_by_zero: self.division_by_zero || other.division_by_zero,
            invalid: self.invalid || other.invalid,
        }
    }
}

/// The flags as one number, the sum of 1 inexact, 2 underflow, 4 overflow, 8 division by zero and 16 invalid.
impl From<Flags> for u8 {
    ghost from_gives = { λ flags number. number ≡ flags_number flags };

    fn from(flags: Flags) -> u8 {
        u8::from(flags.inexact)
            + 2 * u8::from(flags.underflow)
            + 4 * u8::from(flags.overflow)
            + 8 * u8::from(flags.division_by_zero)
            + 16 * u8::from(flags.invalid)
    }
}
