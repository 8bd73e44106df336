// Signs, the seven rounding modes and what each means, and the exception flags.
#![tactic(auto)]

mod flags;
mod mode;
mod sign;

pub use flags::Flags;
pub use mode::{Mode, Position};
pub use sign::Sign;
