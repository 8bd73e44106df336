// Orders of calls on a new card, and the law that holds over every one of them.
#![tactic(auto)]

mod desk;
mod replaying;
mod room;
mod steps;

pub use replaying::{NotReplayed, Replayed, replay};
pub use room::Room;
