// One call of a season, and what it answers.
ghost use Rattle.std.specs.Prelude.{◌≡◌};
ghost use Rattle.accounts.specs.declared.calls.NotDone.TheVariants.{Refused};

use divider::QuotientWord;
use refusals::Fault;
use runs::{Pair, Ran, Round};

/// One call. A draft goes by its number: the calls that begin one are numbered from 0, refused or not. A mode goes by its number too,
/// since the call judges it. An order has runs of both kinds of record, so each kind is a call: a parameter would give an order one kind.
#[derive(Clone, Copy)]
pub enum Call<'a> {
    SetMode(u32),
    Divide(Pair),
    Begin(Pair),
    Round(usize),
    Post(usize),
    StrikeOut(usize),
    RunPairs(u32, &'a [Pair]),
    RunRounds(u32, &'a [Round]),
    Lower,
    Clear,
}

/// What a call came to, if it was carried out. A run tells how many records it posted, and the fault that stopped it.
#[derive(Clone, Copy)]
pub enum Answer {
    Done,
    Quotient(QuotientWord),
    Run(Ran),
}

/// Why a call was not carried out: it was refused, or it names a draft that is not open.
#[derive(Clone, Copy)]
pub enum NotDone {
    Refused(Fault),
    NoDraft,
}

/// What a call answers.
pub type Outcome = Result<Answer, NotDone>;

impl From<Fault> for NotDone {
    ghost from_gives = { λ fault not_done. not_done ≡ Refused fault };

    fn from(fault: Fault) -> NotDone {
        NotDone::Refused(fault)
    }
}
