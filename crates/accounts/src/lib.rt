// Calls of a season, what each answers, and the account that they come to, from their arguments alone.
#![tactic(auto)]

mod calls;
mod worked;

pub use calls::{Answer, Call, NotDone, Outcome};
pub use worked::worked_lines;
