// The quotient of two numbers of decimal32, known by its first eight digits and whether anything is left, rounded once.
#![tactic(auto)]

mod round;
mod split;
mod types;

pub use types::{Leading, Magnitude, Rounded, Split};
