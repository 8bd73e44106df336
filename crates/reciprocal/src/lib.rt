// Reciprocals of divisors of seven digits: two tables, short division, and layers of Newton's step over any of them.
#![tactic(auto)]

mod newton;
mod powers;
mod short;
mod source;
mod table;
mod tables;
mod worked;

pub use newton::{Newton, TWO_LAYERS};
pub use short::ShortDivision;
pub use source::Source;
pub use table::{DigitTable, ThreeDigitTable, TwoDigitTable};
pub use worked::worked_reciprocals;
