// Decimal32 numbers and words: the lowest layer, with the refusals, modes and flags that it stands on.
#![tactic(auto)]

mod declet;
mod finite;
mod nan;
mod number;
mod tables;
#[cfg(test)]
mod tests;
mod words;
mod worked;

pub use declet::{read_declet, write_declet};
pub use number::{Finite, Nan, Number};
pub use refusals::{Fault, Layer, Refusal};
pub use rounding::{Flags, Mode, Position, Sign};
pub use words::{canonical_word, read_word, write_word};
pub use worked::worked_lines;
