// A run: records are begun and posted in turn, up to the first refusal.
ghost use Rattle.std.specs.Prelude.{◌≡◌, Ok};
ghost use Rattle.rounding.specs.Modes.{mode_numbered};
ghost use Rattle.card.specs.Replies.{Reply};
ghost use Rattle.card.specs.Tallies.{Tally, tally};
ghost use Rattle.runs.specs.Runs.{RunEnd, record_posted, run_in};

use crate::mode::put_in_force;
use crate::records::Record;
use card::{Card, Setting};
use divider::Draft;
use reciprocal::Source;
use refusals::Fault;
use rounding::Mode;

/// How many records a run posted, and the fault that stopped it, if any: both parts stand, since a run that was stopped has still posted.
#[derive(Clone, Copy)]
pub struct Ran {
    pub posted: usize,
    pub fault: Option<Fault>,
}

// Begins and posts one record.
fn post_record<R: Record, S: Source>(
    card: &mut Card,
    setting: &Setting,
    source: &S,
    item: &R,
) -> Result<(), Fault>
    ensures { ◌≡◌ {A = Reply Tally (Unit {0})} (record { answer = result; state = tally card.new }) (record_posted (S.Source.claim source.now) R.Record.operands_or_fault setting.now.mode item.now (tally card.old)) }
{
    let (dividend, divisor) = item.operands()?;
    let draft = Draft::begin(source, &dividend, &divisor)?;
    card.post(draft, setting)
}

/// Posts the records on the card in this mode, from first to last, and stops at the first refusal, which is told with the record's index.
/// The setting has its earlier mode again on every way out.
pub fn run_in_mode<R: Record, S: Source>(
    card: &mut Card,
    setting: &mut Setting,
    source: &S,
    mode: Mode,
    records: &[R],
) -> Ran
    ensures ran { ◌≡◌ {A = RunEnd Tally} (record { ran = result; state = tally card.new }) (run_in (Ok mode) (record_posted (S.Source.claim source.now) R.Record.operands_or_fault) records.now (tally card.old)) }
    ensures mode_restored { setting.new.mode ≡ setting.old.mode }
{
    let guard = put_in_force(setting, mode);
    // A fault is told with the record's index.
    for (index, item) in records.iter().enumerate() {
        if let Err(fault) = post_record(card, guard.setting, source, item) {
            return Ran {
                posted: index,
                fault: Some(Fault {
                    place: index,
                    ..fault
                }),
            };
        }
    }
    Ran {
        posted: records.len(),
        fault: None,
    }
}

/// A run in the mode of this number, which the run judges first, also where there is no record: so it is no `Mode`.
pub fn run<R: Record, S: Source>(
    card: &mut Card,
    setting: &mut Setting,
    source: &S,
    mode: u32,
    records: &[R],
) -> Ran
    ensures ran { ◌≡◌ {A = RunEnd Tally} (record { ran = result; state = tally card.new }) (run_in (mode_numbered mode) (record_posted (S.Source.claim source.now) R.Record.operands_or_fault) records.now (tally card.old)) }
    ensures mode_restored { setting.new.mode ≡ setting.old.mode }
{
    match Mode::try_from(mode) {
        Ok(mode) => run_in_mode(card, setting, source, mode, records),
        Err(fault) => Ran {
            posted: 0,
            fault: Some(fault),
        },
    }
}
