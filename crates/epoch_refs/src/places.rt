//! Places, and a look at one.
ghost use Rattle.std.specs.Prelude.{◌≡◌};
ghost use Rattle.epoch_domain.specs.Calls.{IsReady, Steps};
ghost use Rattle.epoch_domain.specs.epoch_core.declared.act.EpochAct.TheVariants as act;
ghost use Rattle.epoch_domain.specs.epoch_core.declared.outcome.EpochOutcome.TheVariants as outcome;
ghost use Rattle.epoch_domain.specs.epoch_core.Views.{IsInside, IsOpen};
ghost use Rattle.epoch_refs.specs.Calls.{event_place};
ghost use Rattle.epoch_refs.specs.Walks.{IsAtRest};

use control_word::Place;
use epoch_domain::{Deed, EpochDomain, EpochOutcome, EpochSeat, EventPlace, Protocol, SlotId};

/// A place, as events name it.
pub(crate) fn event_place(place: Place) -> EventPlace
    ensures { result ≡ event_place place }
{
    match place {
        Place::Cell(cell) => EventPlace::Cell(cell),
        Place::Field(slot, field) => EventPlace::Field(slot, field),
    }
}

/// What a place holds: from here to the exit it isn't destroyed, and the seat may read it, look at its fields, and gain
/// references to it. One event.
pub fn e_look<P: Protocol, D: Deed<P>>(
    domain: &EpochDomain<P>,
    seat: &mut EpochSeat<P>,
    place: Place,
    deed: D,
) -> Option<SlotId>
    requires rest { IsAtRest domain.now seat.old }
    requires inside { IsInside seat.old.view.core }
    requires place { IsOpen domain.now.shape seat.old.view.core (event_place place) }
    requires deed { IsReady (D.ready deed domain.now.protocol) (act.Look (event_place place))
        seat.old.view }
    ensures looked { Steps P.Kind.fits domain.now (D.next deed domain.now.protocol)
        (D.allows deed domain.now.protocol) (act.Look (event_place place)) seat.old seat.new
        (outcome.Found result) }
    ensures rest { IsAtRest domain.now seat.new }
{
    let EpochOutcome::Found(found) = domain.look(seat, event_place(place), deed) else {
        unreachable!()
    };
    found
}
