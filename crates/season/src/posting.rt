// A season of rounds, posted one by one in one mode.
ghost use Rattle.std.specs.Prelude.{◌≡◌, IfOk};
ghost use Rattle.std.specs.Result.{result_map_both};
ghost use Rattle.rounding.specs.Modes.{mode_numbered};
ghost use Rattle.card.specs.Tallies.{opened, tally};
ghost use Rattle.season.specs.Seasons.{round_answer, round_run, told, typed_after, typed_answer};

use crate::answers::{Added, Problem};
use crate::lines::Malformed;
use card::{Card, Setting};
use reciprocal::Source;
use refusals::Fault;
use rounding::Mode;
use runs::{Round, run_in_mode};

/// The card of the season, which is in tenths, and the mode in which rounds are posted.
#[derive(Drop)]
pub struct Season {
    pub card: Card,
    setting: Setting,
}

// A new card in tenths.
fn open_card() -> Card
    ensures { tally result ≡ opened 1 }
{
    Card::open(1).unwrap()
}

// The answer to a round: the fault that it met, or what it added to a card of its own.
fn tell(fault: Option<Fault>, alone: &Card) -> Result<Added, Problem>
    ensures { result ≡ told fault (tally alone.now) }
{
    match fault {
        Some(fault) => Err(fault.into()),
        None => Ok(Added {
            floor: alone.low,
            value: alone.figure,
            ceiling: alone.high,
        }),
    }
}

impl Season {
    /// A season before its first round. The mode is a number since this judges it: it is typed, and gets refusal 9 if it is no mode.
    pub fn begin(mode: u32) -> Result<Season, Fault>
        ensures mode { result_map_both (λ s. s.setting.mode) (λ f. f) result ≡ mode_numbered mode }
        ensures card { IfOk result (λ s. tally s.card ≡ opened 1) }
    {
        let mode = Mode::try_from(mode)?;
        Ok(Season {
            card: open_card(),
            setting: Setting { mode },
        })
    }

    // Posts a round. What it adds is told by a card of its own.
    fn post<S: Source>(&mut self, source: &S, round: Round) -> Result<Added, Problem>
        ensures answer { result ≡ round_answer (S.Source.claim source.now) self.old.setting.mode round (tally self.old.card) }
        ensures after { tally self.new.card ≡ (round_run (S.Source.claim source.now) self.old.setting.mode round (tally self.old.card)).state }
        ensures mode { self.new.setting.mode ≡ self.old.setting.mode }
    {
        let mode = self.setting.mode;
        let mut alone = open_card();
        run_in_mode(&mut alone, &mut self.setting, source, mode, &[round]);
        let ran = run_in_mode(&mut self.card, &mut self.setting, source, mode, &[round]);
        tell(ran.fault, &alone)
    }

    /// The answer to a line, which posts its round. A line that says nothing has none.
    pub fn answer<S: Source>(
        &mut self,
        source: &S,
        typed: Option<Result<Round, Malformed>>,
    ) -> Option<Result<Added, Problem>>
        ensures answer { result ≡ typed_answer (S.Source.claim source.now) self.old.setting.mode typed (tally self.old.card) }
        ensures after { tally self.new.card ≡ typed_after (S.Source.claim source.now) self.old.setting.mode typed (tally self.old.card) }
        ensures mode { self.new.setting.mode ≡ self.old.setting.mode }
    {
        match typed? {
            Ok(round) => Some(self.post(source, round)),
            Err(malformed) => Some(Err(malformed.into())),
        }
    }
}
