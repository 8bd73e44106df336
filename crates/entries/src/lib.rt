// Entry lines of a sheet: their fields, what these say, and what a line asks for.
#![tactic(auto)]

mod asking;
mod entry;
mod field;
mod reading;
mod request;

pub use entry::{Entry, Operands};
pub use field::{Field, Numeral};
pub use request::Request;
