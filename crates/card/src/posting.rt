// Posting on a card, and what else a card is asked.
ghost use Rattle.std.specs.Prelude.{◌≡◌, ℕ, ◌+◌, ◌*◌, ◌<◌, ◌≤◌, ◌+ℤ◌, unsigned_abs};
ghost use Rattle.rounding.specs.Flags.{raised_by_either};
ghost use Rattle.quotient.specs.Quotients.{decimal32, divided};
ghost use Rattle.quotient.specs.Splits.{between};
ghost use Rattle.divider.specs.Divisions.{outcome, under_sign, word_division};
ghost use Rattle.divider.specs.Drafts.{StandsFor};
ghost use Rattle.card.specs.Tallies.{After, added, after_division, is_near, lowered, posted_quotient, tally, with_raised};

use crate::card::Card;
use crate::setting::Setting;
use crate::steps::Steps;
use divider::{Draft, Pair, Quotient, QuotientWord, divide_words};
use reciprocal::Source;
use refusals::{Fault, Refusal};
use rounding::{Flags, Mode};

fn is_to_nearest(mode: Mode) -> bool
    ensures { result ≡ is_near mode }
{
    matches!(
        mode,
        Mode::NearestEven | Mode::NearestZero | Mode::NearestAway
    )
}

impl Card {
    // A total of the card and what is posted.
    fn sum(self, total: i64, more: i64) -> i64
        requires { (self.posted < 10000) × ((unsigned_abs total ≤ 10000000 * self.posted) × (unsigned_abs more ≤ 10000000)) }
        ensures value { result ≡ total +ℤ more }
        ensures small { unsigned_abs result ≤ 10000000 * (self.posted + 1) }
    {
        total + more
    }

    // The card with one posting more.
    fn with(self, mode: Mode, steps: Steps) -> Card
        requires { self.posted < 10000 }
        ensures { tally result ≡ added mode steps.sign (between steps.split) (tally self) }
    {
        let inexact = !steps.is_whole();
        let nearest = is_to_nearest(mode);
        Card {
            step: self.step,
            low: self.sum(self.low, steps.rounded(Mode::Floor)),
            figure: self.sum(self.figure, steps.rounded(mode)),
            high: self.sum(self.high, steps.rounded(Mode::Ceiling)),
            posted: self.posted + 1,
            near: self.near + u32::from(inexact & nearest),
            far: self.far + u32::from(inexact & !nearest),
            flags: self.flags.join(Flags {
                inexact,
                ..Flags::none()
            }),
        }
    }

    /// Lowers every flag.
    pub fn lower(&mut self)
        ensures { tally self.new ≡ lowered (tally self.old) }
    {
        self.flags = Flags::none();
    }

    /// Posts a draft in the mode in force, and ends it. Refuses on a full card, and then a quotient of 10,000,000 steps or more; a refused
    /// posting changes nothing. Whatever fraction n / d the draft stands for, that is what is posted.
    pub fn post(&mut self, draft: Draft, setting: &Setting) -> Result<(), Fault>
        ensures { (n d : ℕ) → StandsFor draft n d → ◌≡◌ {A = After (Unit {0})} (record { answer = result; card = tally self.new }) (posted_quotient setting.now.mode draft.sign n d (tally self.old)) }
    {
        let (sign, split) = draft.in_steps(self.step as u16);
        if self.posted >= 10_000 {
            return Err(Refusal::CardFull.into());
        }
        let split = split.ok_or(Refusal::QuotientTooLarge)?;
        *self = self.with(setting.mode, Steps { sign, split });
        Ok(())
    }

    // The card with these flags raised too.
    fn raise(&mut self, flags: Flags)
        ensures { tally self.new ≡ with_raised flags (tally self.old) }
    {
        self.flags = self.flags.join(flags);
    }

    /// Rounds a draft to decimal32 in the mode in force, and ends it. The flags that it raises stay up on the card.
    pub fn round(&mut self, draft: Draft, setting: &Setting) -> Quotient
        ensures value { (n d : ℕ) → StandsFor draft n d → outcome result ≡ under_sign draft.sign (divided decimal32 setting.now.mode draft.sign n d draft.ideal) }
        ensures raised { tally self.new ≡ with_raised result.flags (tally self.old) }
    {
        let quotient = draft.round(setting.mode);
        self.raise(quotient.flags);
        quotient
    }

    /// The quotient of two words in the mode in force. The flags that it raises stay up on the card. Refuses a source that claims under nine, and
    /// then changes nothing.
    pub fn divide<S: Source>(
        &mut self,
        source: &S,
        setting: &Setting,
        pair: Pair,
    ) -> Result<QuotientWord, Fault>
        ensures value { result ≡ word_division (S.Source.claim source.now) setting.now.mode pair.dividend pair.divisor }
        ensures after { tally self.new ≡ after_division result (tally self.old) }
    {
        let quotient = divide_words(source, setting.mode, pair)?;
        self.raise(quotient.flags);
        Ok(quotient)
    }
}
