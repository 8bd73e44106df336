// An order of calls, carried out on a new card and a new setting.
ghost use Rattle.std.specs.Prelude.{◌≡◌, ◌≤◌, length, IfOk};
ghost use Rattle.std.specs.Result.{result_err};
ghost use Rattle.card.specs.Tallies.{opened, tally};
ghost use Rattle.orders.specs.declared.replaying.NotReplayed.TheVariants.{Step};
ghost use Rattle.orders.specs.Laws.{SeasonLaw, not_replayed, places};

use crate::desk::Desk;
use crate::room::Room;
use accounts::{Call, Outcome};
use card::Card;
use reciprocal::Source;
use refusals::Fault;
use std::alloc::{AllocError, Global};

/// What an order came to: the card, and what each call answered.
#[derive(Drop)]
pub struct Replayed {
    pub card: Card,
    pub outcomes: Vec<Outcome>,
}

/// Why an order was not begun: there is no such step, or the room has fewer places than the order has calls.
#[derive(Clone, Copy)]
pub enum NotReplayed {
    Step(Fault),
    Room,
}

impl From<Fault> for NotReplayed {
    ghost from_gives = { λ fault not_replayed. not_replayed ≡ Step fault };

    fn from(fault: Fault) -> NotReplayed {
        NotReplayed::Step(fault)
    }
}

impl Room {
    /// Room for an order of so many calls.
    pub fn for_calls(heap: Global, calls: usize) -> Result<Room, AllocError>
        ensures { IfOk result (λ room. calls ≤ places room) }
    {
        let outcomes = Vec::with_capacity(heap, calls)?;
        let drafts = Vec::with_capacity(heap, calls)?;
        Ok(Room { drafts, outcomes })
    }

    // The calls that there is room for.
    fn places(&self) -> usize
        ensures { result ≡ places self.now }
    {
        self.drafts.capacity().min(self.outcomes.capacity())
    }

    // Ends a room that no order is carried out in. It is no drop of the type: a type with a drop cannot be taken apart, as an order takes it.
    fn leave(self) {
        let Room {
            drafts,
            outcomes: _,
        } = self;
        drafts.destroy_empty();
    }
}

// The card of an order of so many calls, if it may begin.
fn card_for(step: u8, calls: usize, room: &Room) -> Result<Card, NotReplayed>
    ensures refused { result_err result ≡ not_replayed step calls (places room.now) }
    ensures room { IfOk result (λ _. calls ≤ places room.now) }
    ensures card { IfOk result (λ card. tally card ≡ opened step) }
{
    let card = Card::open(step)?;
    if room.places() < calls {
        return Err(NotReplayed::Room);
    }
    Ok(card)
}

// Carries out the calls in their order on a new card, and strikes out what is still open at the end.
fn carry_out<S: Source>(source: &S, card: Card, calls: &[Call], room: Room) -> Replayed
    requires new { tally card ≡ opened card.step }
    requires room { length calls.now ≤ places room }
    ensures { SeasonLaw (S.Source.claim source.now) card.step calls.now result.outcomes.items (tally result.card) }
{
    let Room {
        drafts,
        mut outcomes,
    } = room;
    let mut desk = Desk::new(card, drafts);
    for call in calls {
        let outcome = desk.perform(source, call);
        outcomes.push_reserved(outcome);
    }
    Replayed {
        card: desk.close(),
        outcomes,
    }
}

/// Carries out the calls in their order on a new card of this step and a new setting, refused calls too, and strikes out what is still open
/// at the end. Refuses a step above four, and then room for fewer calls than there are.
pub fn replay<S: Source>(
    source: &S,
    step: u8,
    calls: &[Call],
    room: Room,
) -> Result<Replayed, NotReplayed>
    ensures refused { result_err result ≡ not_replayed step (length calls.now) (places room) }
    ensures law { IfOk result (λ p. SeasonLaw (S.Source.claim source.now) step calls.now p.outcomes.items (tally p.card)) }
{
    match card_for(step, calls.len(), &room) {
        Ok(card) => Ok(carry_out(source, card, calls, room)),
        Err(why) => {
            room.leave();
            Err(why)
        }
    }
}
