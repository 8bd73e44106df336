// The season card and the mode in force.
#![tactic(auto)]

mod card;
mod open;
mod posting;
mod setting;
mod steps;

pub use card::Card;
pub use setting::Setting;
