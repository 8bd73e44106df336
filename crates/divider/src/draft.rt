// A division that is begun and not yet finished.
ghost use Rattle.std.specs.Prelude.{◌≡◌, true};

use rounding::Sign;
use std::marker::Model;

/// A draft of a quotient: the dividend widened by zeros (A), the divisor brought to seven digits (D), and the biased quotient B that
/// the reciprocal gave, with (B - 1) x D at most A and A below (B + 1) x D. The quotient is A / D x 10^(place - 205), and `ideal` is the ideal
/// exponent and 101, or 0 if that is negative. A draft is ended by one finishing call, which sets `finished`: to let go of it otherwise
/// is refused. The mark is no state to match on: it is there for the drop alone, which by a rule of the project asks that a finishing call
/// took the draft.
pub struct Draft {
    pub(crate) sign: Sign,
    pub(crate) widened: u64,
    pub(crate) divisor: u64,
    pub(crate) biased: u64,
    pub(crate) place: u16,
    pub(crate) ideal: u16,
    pub(crate) finished: bool,
}

impl Model for Draft {
    ghost use Rattle.divider.specs.Begun.{Begun};

    ghost Value = { Begun };

    ghost use Rattle.divider.specs.Held.{held, Keeps};

    ghost view = { held };

    ghost invariant = { λ d. Keeps (held d) };
}

impl Drop for Draft {
    fn drop(self)
        requires { self.finished ≡ true }
    {
        let Draft {
            sign: _,
            widened: _,
            divisor: _,
            biased: _,
            place: _,
            ideal: _,
            finished: _,
        } = self;
    }
}
