// A new card, and one that is cleared.
ghost use Rattle.std.specs.Prelude.{◌≡◌, ◌≤◌};
ghost use Rattle.std.specs.Result.{result_map_both};
ghost use Rattle.card.specs.Tallies.{cleared, nothing_posted, open_card, tally};

use crate::card::Card;
use refusals::{Fault, Refusal};
use rounding::Flags;

impl Card {
    // A card of this step with these flags up and nothing posted.
    fn blank(step: u8, flags: Flags) -> Card
        requires { step ≤ 4 }
        ensures { tally result ≡ nothing_posted step flags }
    {
        Card {
            step,
            low: 0,
            figure: 0,
            high: 0,
            posted: 0,
            near: 0,
            far: 0,
            flags,
        }
    }

    /// Opens a card of this step. Refuses a step above four.
    pub fn open(step: u8) -> Result<Card, Fault>
        ensures { result_map_both tally (λ f. f) result ≡ open_card step }
    {
        if step > 4 {
            return Err(Refusal::UnknownStep.into());
        }
        Ok(Card::blank(step, Flags::none()))
    }

    /// Brings totals and counts back to zero. Step and flags stay.
    pub fn clear(&mut self)
        ensures { tally self.new ≡ cleared (tally self.old) }
    {
        *self = Card::blank(self.step, self.flags);
    }
}
