// What an order is carried out on.
use card::{Card, Setting};
use divider::Draft;

// A setting, a card and the drafts that were begun, by their numbers: none where beginning was refused or the draft has ended. Numbers are
// given in turn, so a map would say no more than the list.
pub(crate) struct Desk {
    pub(crate) setting: Setting,
    pub(crate) card: Card,
    pub(crate) begun: Vec<Option<Draft>>,
}
