// The seven rounding modes.
ghost use Rattle.std.specs.Prelude.{◌≡◌, Ok};
ghost use Rattle.rounding.specs.Modes.{mode_numbered, RoundsSo};
ghost use Rattle.rounding.specs.Rounding.{goes_up, past_middle, is_whole};

use crate::sign::Sign;
use refusals::{Fault, Refusal};

/// How a value between two neighbours is rounded: to the nearer one, which three modes do with three rules for a
/// tie, or to one side. To the nearer with ties to even by default.
#[derive(Clone, Copy, Default)]
pub enum Mode {
    #[default]
    NearestEven = 1,
    NearestZero = 2,
    NearestAway = 3,
    Ceiling = 4,
    Floor = 5,
    TowardZero = 6,
    AwayFromZero = 7,
}

/// Where a magnitude lies between the whole number under it and the next.
#[derive(Clone, Copy)]
pub enum Position {
    Whole,
    Below,
    Middle,
    Above,
}

impl Position {
    /// Is the magnitude a whole number itself?
    pub fn is_whole(self) -> bool
        ensures { result ≡ is_whole self }
    {
        matches!(self, Position::Whole)
    }

    // Is the next whole number nearer? In the middle, as `tie` says.
    fn is_past_middle(self, tie: bool) -> bool
        ensures { result ≡ past_middle tie self }
    {
        match self {
            Position::Whole | Position::Below => false,
            Position::Middle => tie,
            Position::Above => true,
        }
    }
}

fn goes_up_to_next(mode: Mode, sign: Sign, odd: bool, position: Position) -> bool
    ensures { result ≡ goes_up mode sign odd position }
{
    match mode {
        Mode::NearestEven => position.is_past_middle(odd),
        Mode::NearestZero => position.is_past_middle(false),
        Mode::NearestAway => position.is_past_middle(true),
        Mode::Ceiling => match sign {
            Sign::Plus => !position.is_whole(),
            Sign::Minus => false,
        },
        Mode::Floor => match sign {
            Sign::Plus => false,
            Sign::Minus => !position.is_whole(),
        },
        Mode::TowardZero => false,
        Mode::AwayFromZero => !position.is_whole(),
    }
}

/// The mode of a number, 1 to 7. Any other number is refused.
impl TryFrom<u32> for Mode {
    type Error = Fault;

    ghost try_from_gives = { λ number mode. mode ≡ mode_numbered number };

    fn try_from(number: u32) -> Result<Mode, Fault> {
        match number {
            1 => Ok(Mode::NearestEven),
            2 => Ok(Mode::NearestZero),
            3 => Ok(Mode::NearestAway),
            4 => Ok(Mode::Ceiling),
            5 => Ok(Mode::Floor),
            6 => Ok(Mode::TowardZero),
            7 => Ok(Mode::AwayFromZero),
            _ => Err(Refusal::UnknownMode.into()),
        }
    }
}

/// The number of a mode: the one that is read as the mode.
impl From<Mode> for u32 {
    ghost from_gives = { λ mode number. mode_numbered number ≡ Ok mode };

    fn from(mode: Mode) -> u32 {
        mode as u32
    }
}

impl Mode {
    /// Does a magnitude at this position, above an even or an odd whole number, go up to the next one? The answer is
    /// the only one that rounds the signed value as the mode says.
    pub fn rounds_up(self, sign: Sign, odd: bool, position: Position) -> bool
        ensures value { result ≡ goes_up self sign odd position }
        ensures only { RoundsSo self sign odd position result }
    {
        goes_up_to_next(self, sign, odd, position)
    }
}
