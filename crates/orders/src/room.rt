// Room to carry out an order in.
ghost use Rattle.std.specs.Prelude.{◌≡◌, vec_len};

use accounts::Outcome;
use divider::Draft;

/// Room for the drafts and the outcomes of an order of calls: two lists, since an order that was begun is not refused for want of memory.
pub struct Room {
    pub(crate) drafts: Vec<Option<Draft>>,
    pub(crate) outcomes: Vec<Outcome>,
    ghost no_drafts: { vec_len drafts ≡ 0 },
    ghost no_outcomes: { vec_len outcomes ≡ 0 },
}
