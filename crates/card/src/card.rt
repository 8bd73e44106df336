// The season card.
ghost use Rattle.std.specs.Prelude.{◌+◌, ◌*◌, ◌≤◌, unsigned_abs};

use rounding::Flags;

/// A card adds rounded quotients in steps of 10^-step: their floors in `low`, their values by the mode in `figure` and their ceilings in
/// `high`. It counts the postings, and those that are no whole number of steps: `near` in the modes to the nearest, `far` in the others.
#[derive(Clone, Copy)]
pub struct Card {
    pub step: u8,
    pub low: i64,
    pub figure: i64,
    pub high: i64,
    pub posted: u32,
    pub near: u32,
    pub far: u32,
    pub flags: Flags,
    ghost step_limit: { step ≤ 4 },
    ghost posted_limit: { posted ≤ 10000 },
    ghost counts_limit: { near + far ≤ posted },
    ghost low_limit: { unsigned_abs low ≤ 10000000 * posted },
    ghost figure_limit: { unsigned_abs figure ≤ 10000000 * posted },
    ghost high_limit: { unsigned_abs high ≤ 10000000 * posted },
}
