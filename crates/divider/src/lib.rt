// Division of decimal32 numbers over any source of reciprocals: drafts, one rounding, and the quotient of two words.
#![tactic(auto)]

mod begin;
mod divide;
mod draft;
mod finish;
mod nine;
mod normal;
mod outcome;
mod pair;
mod steps;
mod strike;
mod worked;

pub use divide::{divide_words, sources_agree};
pub use draft::Draft;
pub use outcome::{Quotient, QuotientWord};
pub use pair::Pair;
pub use worked::worked_lines;
