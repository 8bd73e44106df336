// What a NaN carries, made from its parts, and its parts read.
ghost use Rattle.std.specs.Prelude.{◌≡◌};
ghost use Rattle.decimal.specs.Numbers.{nan_made, nan_seen};

use crate::number::Nan;
use refusals::{Fault, Refusal};
use rounding::Sign;

impl Nan {
    /// What a NaN of this sign and payload carries. Refuses a payload above 999,999.
    pub fn new(sign: Sign, payload: u32) -> Result<Nan, Fault>
        ensures { nan_seen result ≡ nan_made sign payload }
    {
        if payload > 999_999 {
            return Err(Refusal::CoefficientTooLarge.into());
        }
        Ok(Nan { sign, payload })
    }
}
