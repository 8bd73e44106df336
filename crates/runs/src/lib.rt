// Posting runs: a card takes a list of records, each a pair of words or a golf round, in a mode of the run's own.
#![tactic(auto)]

mod mode;
mod records;
mod running;

pub use divider::Pair;
pub use records::{Record, Round};
pub use running::{Ran, run, run_in_mode};
