// Each call on the desk, beside what it does to the account.
ghost use Rattle.std.specs.Prelude.{◌≡◌, ℕ, vec_len};
ghost use Rattle.card.specs.Tallies.{opened, tally};
ghost use Rattle.accounts.specs.declared.calls.Call.TheVariants.{SetMode, Divide, Begin, Round, Post, StrikeOut, Lower, Clear};
ghost use Rattle.accounts.specs.Account.{fresh};
ghost use Rattle.orders.specs.Desks.{Agrees, Follows, HasPlace, Runs, Taken};

use crate::desk::Desk;
use accounts::{Answer, Call, NotDone, Outcome};
use card::{Card, Setting};
use divider::Draft;
use reciprocal::Source;
use runs::{Pair, Record, run};

impl Desk {
    pub(crate) fn new(card: Card, begun: Vec<Option<Draft>>) -> Desk
        requires empty { vec_len begun ≡ 0 }
        ensures agrees { (s : ℕ) → tally card ≡ opened s → Agrees s fresh result }
        ensures room { result.begun ≡ begun }
    {
        Desk {
            setting: Setting::new(),
            card,
            begun,
        }
    }

    // The draft of a number, if it is open, which is then no longer on the desk.
    fn take(&mut self, number: usize) -> Result<Draft, NotDone>
        ensures { Taken number self.old result self.new }
    {
        // With `and_then(Option::take)` it is not proved what stays on the desk.
        let place = self.begun.get_mut(number).ok_or(NotDone::NoDraft)?;
        place.take().ok_or(NotDone::NoDraft)
    }

    fn set_mode(&mut self, number: u32) -> Outcome
        ensures { (claim : ℕ) → Follows claim (SetMode number) self.old result self.new }
    {
        self.setting.set(number)?;
        Ok(Answer::Done)
    }

    fn divide<S: Source>(&mut self, source: &S, pair: Pair) -> Outcome
        ensures { Follows (S.Source.claim source.now) (Divide pair) self.old result self.new }
    {
        let quotient = self.card.divide(source, &self.setting, pair)?;
        Ok(Answer::Quotient(quotient))
    }

    fn begin<S: Source>(&mut self, source: &S, pair: Pair) -> Outcome
        requires { HasPlace self.old }
        ensures { Follows (S.Source.claim source.now) (Begin pair) self.old result self.new }
    {
        let (dividend, divisor) = pair.numbers();
        match Draft::begin(source, &dividend, &divisor) {
            Ok(draft) => {
                self.begun.push_reserved(Some(draft));
                Ok(Answer::Done)
            }
            Err(fault) => {
                self.begun.push_reserved(None);
                Err(fault.into())
            }
        }
    }

    fn round(&mut self, number: usize) -> Outcome
        ensures { (claim : ℕ) → Follows claim (Round number) self.old result self.new }
    {
        let draft = self.take(number)?;
        let quotient = self.card.round(draft, &self.setting);
        Ok(Answer::Quotient(quotient.into()))
    }

    fn post(&mut self, number: usize) -> Outcome
        ensures { (claim : ℕ) → Follows claim (Post number) self.old result self.new }
    {
        let draft = self.take(number)?;
        self.card.post(draft, &self.setting)?;
        Ok(Answer::Done)
    }

    fn strike_out(&mut self, number: usize) -> Outcome
        ensures { (claim : ℕ) → Follows claim (StrikeOut number) self.old result self.new }
    {
        let draft = self.take(number)?;
        draft.strike_out();
        Ok(Answer::Done)
    }

    fn run_over<R: Record, S: Source>(&mut self, source: &S, mode: u32, records: &[R]) -> Outcome
        ensures { Runs (S.Source.claim source.now) R.Record.operands_or_fault mode records.now self.old result self.new }
    {
        let ran = run(&mut self.card, &mut self.setting, source, mode, records);
        Ok(Answer::Run(ran))
    }

    fn lower(&mut self) -> Outcome
        ensures { (claim : ℕ) → Follows claim Lower self.old result self.new }
    {
        self.card.lower();
        Ok(Answer::Done)
    }

    fn clear(&mut self) -> Outcome
        ensures { (claim : ℕ) → Follows claim Clear self.old result self.new }
    {
        self.card.clear();
        Ok(Answer::Done)
    }

    // Makes one call. A call is data, which the account reads too, so that closures would say no more than this match.
    pub(crate) fn perform<S: Source>(&mut self, source: &S, call: &Call) -> Outcome
        requires { HasPlace self.old }
        ensures { Follows (S.Source.claim source.now) call.now self.old result self.new }
    {
        match *call {
            Call::SetMode(number) => self.set_mode(number),
            Call::Divide(pair) => self.divide(source, pair),
            Call::Begin(pair) => self.begin(source, pair),
            Call::Round(number) => self.round(number),
            Call::Post(number) => self.post(number),
            Call::StrikeOut(number) => self.strike_out(number),
            Call::RunPairs(mode, pairs) => self.run_over(source, mode, pairs),
            Call::RunRounds(mode, rounds) => self.run_over(source, mode, rounds),
            Call::Lower => self.lower(),
            Call::Clear => self.clear(),
        }
    }

    // The card, with the drafts that are still open struck out.
    pub(crate) fn close(self) -> Card
        ensures { result ≡ self.card }
    {
        let Desk {
            setting: _,
            card,
            mut begun,
        } = self;
        // A `for` over the list gets no proof: it could let go of a draft that is open.
        while let Some(place) = begun.pop() {
            if let Some(draft) = place {
                draft.strike_out();
            }
        }
        begun.destroy_empty();
        card
    }
}
