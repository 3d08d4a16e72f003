//! Strong references go into places, and what stood there is retired.
ghost use Rattle.std.specs.Prelude.{◌≡◌, IfErr, IfOk};
ghost use Rattle.protected_loads.specs.plain_state.declared.slot.Kind.TheVariants as kind;
ghost use Rattle.protected_loads.specs.core_events.declared.act.Act.TheVariants as act;
ghost use Rattle.protected_loads.specs.core_events.Steps.{CanGive, HasRoom, IsContent, without_given};
ghost use Rattle.protected_loads.specs.core_events.Views.{IsOpen};
ghost use Rattle.retiring_stores.specs.acquire_retire.Calls.{IsReady};
ghost use Rattle.retiring_stores.specs.control_word.Moves.{KnowsStill};
ghost use Rattle.retiring_stores.specs.control_word.Resting.{IsAtRest};
ghost use Rattle.retiring_stores.specs.Exchanging.{LosesTo, Replaces, Stores};
ghost use Rattle.retiring_stores.specs.Scanning.{IsBelow};
ghost use Rattle.atomic_shared.specs.Places.{named, strong_place};

use crate::places::{event_place, slot_of};
use protected_loads::{Deed, Place, Protocol, SlotId, held_as};
use retiring_stores::{Domain, Seat, Strong, compare_exchange, exchange};

/// A place held something else than what was expected.
#[derive(Debug, Drop)]
pub struct Lost {
    /// The word that it held: 0 for null, else the slot's number and one.
    pub now: u64,
    /// The handle that was to go into the place.
    pub back: Option<Strong>,
}

/// Puts the reference, or null, into the place. What the place held is retired, and never given up at once, since
/// another seat may be about to count a reference to it. One step with the deed, and a collect where the seat's retired
/// entries are then so many that one is due.
pub fn store<P: Protocol, D: Deed<P>>(
    domain: &Domain<P>,
    seat: &mut Seat<P>,
    place: Place,
    new: Option<Strong>,
    deed: D,
)
    requires rest { IsAtRest domain.now seat.old }
    requires room { HasRoom seat.old.view.core }
    requires open { IsOpen domain.now.shape seat.old.view.core (strong_place place) }
    requires owned { CanGive kind.Strong (named new) seat.old.view.core }
    requires deed { IsReady (D.ready deed domain.now.protocol) domain.now.shape
        (act.Swap (strong_place place) (named new)) seat.old.view }
    ensures stored { Stores P.Kind.fits domain.now (D.next deed domain.now.protocol)
        (D.allows deed domain.now.protocol) (strong_place place) (named new) seat.old seat.new }
    ensures below { IsBelow domain.now seat.new }
    ensures room { HasRoom seat.new.view.core }
    ensures notes { seat.new.view.core.notes ≡ seat.old.view.core.notes }
    ensures objects { KnowsStill (without_given kind.Strong (named new) seat.old.view.core)
        seat.old seat.new }
    ensures rest { IsAtRest domain.now seat.new }
{
    exchange(domain, seat, event_place(place), slot_of(&new), deed);
}

/// The same where the place holds what is expected. Else `Lost` tells what it held, and hands the reference back,
/// which is the seat's still: only its trail has grown, and the client's view is the deed's. One step, and a collect
/// where the seat has retired what was expected and one is due.
pub fn try_replace<P: Protocol, D: Deed<P>>(
    domain: &Domain<P>,
    seat: &mut Seat<P>,
    place: Place,
    expected: Option<SlotId>,
    new: Option<Strong>,
    deed: D,
) -> Result<(), Lost>
    requires rest { IsAtRest domain.now seat.old }
    requires room { HasRoom seat.old.view.core }
    requires open { IsOpen domain.now.shape seat.old.view.core (strong_place place) }
    requires owned { CanGive kind.Strong (named new) seat.old.view.core }
    requires expected { IsContent domain.now.shape expected }
    requires deed { IsReady (D.ready deed domain.now.protocol) domain.now.shape
        (act.Cas (strong_place place) expected (named new)) seat.old.view }
    ensures replaced { IfOk result (λ done. Replaces P.Kind.fits domain.now
        (D.next deed domain.now.protocol) (D.allows deed domain.now.protocol)
        (strong_place place) (named new) expected seat.old seat.new × IsBelow domain.now seat.new) }
    ensures lost { IfErr result (λ lost. LosesTo P.Kind.fits domain.now
        (D.next deed domain.now.protocol) (D.allows deed domain.now.protocol)
        (strong_place place) (named new) expected lost.now seat.old seat.new) }
    ensures back { IfErr result (λ lost. lost.back ≡ new) }
    ensures room { HasRoom seat.new.view.core }
    ensures notes { seat.new.view.core.notes ≡ seat.old.view.core.notes }
    ensures objects { KnowsStill (without_given kind.Strong (named new) seat.old.view.core)
        seat.old seat.new }
    ensures rest { IsAtRest domain.now seat.new }
{
    let slot = slot_of(&new);
    match compare_exchange(domain, seat, event_place(place), expected, slot, deed) {
        Ok(()) => Ok(()),
        Err(found) => Err(Lost {
            now: held_as(found),
            back: new,
        }),
    }
}
