//! Exchanges of what a place holds. What leaves the place is pending, with the epoch that is read once it has left.
ghost use Rattle.std.specs.Prelude.{◌≡◌, ◌<◌, false, IfErr, OnErr, OnOk};
ghost use Rattle.epoch_domain.specs.Calls.{IsOf, IsReady};
ghost use Rattle.epoch_domain.specs.Exchanging.{phase_taking};
ghost use Rattle.epoch_domain.specs.epoch_core.declared.act.EpochAct.TheVariants as act;
ghost use Rattle.epoch_domain.specs.epoch_core.Steps.{CanGive, IsContent};
ghost use Rattle.epoch_domain.specs.epoch_core.Views.{IsOpen};
ghost use Rattle.epoch_refs.specs.Calls.{event_place, slot_of};
ghost use Rattle.epoch_refs.specs.Exchanges.{Dates, IsExchanged, IsStored, IsUnchanged};
ghost use Rattle.epoch_refs.specs.Walks.{IsAtRest};

use crate::places::event_place;
use control_word::{Place, Strong};
use epoch_domain::{Deed, EpochDomain, EpochOutcome, EpochSeat, Protocol, SlotId, held_as};
use out_of_memory::Back;
use std::alloc::Global;

/// Why an exchange put nothing into a place.
#[derive(Debug, Drop)]
pub enum ECasError {
    /// The place held another word than the expected one: `now`, 0 for null, else the slot's number and one. What was
    /// to be put there is given back.
    Lost { now: u64, back: Option<Strong> },
    /// There was no memory for the entry of what would be taken out.
    OutOfMemory(Back<Option<Strong>>),
}

/// The slot of a handle, where there is one.
fn slot_of(handle: &Option<Strong>) -> Option<SlotId>
    ensures { result ≡ slot_of handle.now }
{
    match handle {
        Some(strong) => Some(strong.slot()),
        None => None,
    }
}

/// Dates what an exchange took out of a place. One event, or none where that was null.
pub(crate) fn date_taken<P: Protocol>(
    domain: &EpochDomain<P>,
    seat: &mut EpochSeat<P>,
    took: Option<SlotId>,
)
    requires seat { IsOf domain.now seat.old }
    requires here { seat.old.view.core.left ≡ false }
    requires took { seat.old.view.core.phase ≡ phase_taking took }
    requires room { 0 < seat.old.room }
    ensures dates { Dates P.Kind.fits domain.now took seat.old seat.new }
    ensures rest { IsAtRest domain.now seat.new }
{
    if took.is_some() {
        domain.date(seat);
    }
}

/// Puts null, or the reference of a handle, into a place where that holds what is expected. What it held is pending
/// then, dated with the epoch that is read afterwards.
///
/// `OutOfMemory` comes before any event, and nothing has changed but the room for entries. `Lost` comes exactly where
/// the exchange found another word, which is `now`. Two events, or one where the place held null or the exchange lost.
pub fn e_cas<P: Protocol, D: Deed<P>>(
    _alloc: Global,
    domain: &EpochDomain<P>,
    seat: &mut EpochSeat<P>,
    place: Place,
    expected: Option<SlotId>,
    new: Option<Strong>,
    deed: D,
) -> Result<(), ECasError>
    requires rest { IsAtRest domain.now seat.old }
    requires place { IsOpen domain.now.shape seat.old.view.core (event_place place) }
    requires content { IsContent domain.now.shape expected }
    requires owned { CanGive (slot_of new) seat.old.view.core }
    requires deed { IsReady (D.ready deed domain.now.protocol)
        (act.Cas (event_place place) expected (slot_of new)) seat.old.view }
    ensures done { IsExchanged P.Kind.fits domain.now (D.next deed domain.now.protocol)
        (D.allows deed domain.now.protocol) (event_place place) expected new result seat.old
        seat.new }
    ensures rest { IsAtRest domain.now seat.new }
{
    if domain.reserve(seat, 1).is_err() {
        return Err(ECasError::OutOfMemory(Back { back: new }));
    }
    let content = slot_of(&new);
    match domain.cas(seat, event_place(place), expected, content, deed) {
        EpochOutcome::Done => {
            date_taken(domain, seat, expected);
            Ok(())
        }
        EpochOutcome::LostTo(held) => Err(ECasError::Lost {
            now: held_as(held),
            back: new,
        }),
        _ => unreachable!(),
    }
}

/// Puts null, or the reference of a handle, into a place, whatever that holds. What it held is pending then, dated with
/// the epoch that is read afterwards. A refusal comes before any event, and nothing has changed but the room for
/// entries. Two events, or one where the place held null.
pub fn e_store<P: Protocol, D: Deed<P>>(
    _alloc: Global,
    domain: &EpochDomain<P>,
    seat: &mut EpochSeat<P>,
    place: Place,
    new: Option<Strong>,
    deed: D,
) -> Result<(), Back<Option<Strong>>>
    requires rest { IsAtRest domain.now seat.old }
    requires place { IsOpen domain.now.shape seat.old.view.core (event_place place) }
    requires owned { CanGive (slot_of new) seat.old.view.core }
    requires deed { IsReady (D.ready deed domain.now.protocol)
        (act.Swap (event_place place) (slot_of new)) seat.old.view }
    ensures stored { OnOk result (IsStored P.Kind.fits domain.now
        (D.next deed domain.now.protocol) (D.allows deed domain.now.protocol)
        (act.Swap (event_place place) (slot_of new)) seat.old seat.new) }
    ensures back { IfErr result (λ refused. refused.back ≡ new) }
    ensures refused { OnErr result (IsUnchanged seat.old seat.new) }
    ensures rest { IsAtRest domain.now seat.new }
{
    if domain.reserve(seat, 1).is_err() {
        return Err(Back { back: new });
    }
    let content = slot_of(&new);
    let EpochOutcome::Found(held) = domain.swap(seat, event_place(place), content, deed) else {
        unreachable!()
    };
    date_taken(domain, seat, held);
    Ok(())
}
