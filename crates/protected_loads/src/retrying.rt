//! A load that goes on until the place holds still.
ghost use Rattle.std.specs.Prelude.{◌≡◌, ◌↔◌, IfOk, IsErr, OnErr};
ghost use Rattle.control_word.specs.plain_state.Places.{place_kind};
ghost use Rattle.control_word.specs.core_events.Steps.{CanGive, HasRoom};
ghost use Rattle.control_word.specs.core_events.Views.{IsReadable};
ghost use Rattle.control_word.specs.Moves.{KnowsStill};
ghost use Rattle.control_word.specs.Resting.{IsAtRest, IsSpent};
ghost use Rattle.protected_loads.specs.Retries.{IsReadyToRetry, LoadsAtLast};

use crate::loading::load_once;
use control_word::{Deed, Domain, EventPlace, Protocol, Seat, SlotId, Spent};
use crossbeam_utils::Backoff;
use std::sync::Wait;

/// The slot that the place holds, with one reference more to it, of the place's kind, which is the seat's. It tries
/// again as long as the place changes between its look and its check, so it may wait for other threads. `Spent` comes
/// first, exactly where the seat has used all adds of its quota, and then nothing has changed. `None` exactly where
/// the last try found null. At most five steps for each try, and one add where a slot is answered.
// Where the place is known at the call, so is the word that is read.
#[inline(always)]
pub fn load<P: Protocol, D: Deed<P>, R: Wait>(
    rt: &R,
    domain: &Domain<P>,
    seat: &mut Seat<P>,
    place: EventPlace,
    deed: D,
) -> Result<Option<SlotId>, Spent>
    requires rest { IsAtRest domain.now seat.old }
    requires place { IsReadable domain.now.shape seat.old.view.core place }
    requires deed { IsReadyToRetry P.Kind.fits domain.now place (D.next deed domain.now.protocol)
        (D.allows deed domain.now.protocol) (D.ready deed domain.now.protocol) seat.old }
    ensures spent { IsErr result ↔ IsSpent seat.old.view.core }
    ensures refused { OnErr result (seat.new ≡ seat.old) }
    ensures loaded { IfOk result (λ found. LoadsAtLast P.Kind.fits domain.now place
        (D.next deed domain.now.protocol) (D.allows deed domain.now.protocol) found
        seat.old seat.new) }
    ensures owned { IfOk result (λ found. CanGive (place_kind place) found seat.new.view.core) }
    ensures notes { seat.new.view.core.notes ≡ seat.old.view.core.notes }
    ensures objects { KnowsStill seat.old.view.core seat.old seat.new }
    ensures room { HasRoom seat.old.view.core → HasRoom seat.new.view.core }
    ensures rest { IsAtRest domain.now seat.new }
{
    if domain.adds_left(seat) == 0 {
        return Err(Spent);
    }
    let backoff = Backoff::new();
    for _ in rt.forever() {
        if let Ok(found) = load_once(domain, seat, place, deed) {
            return Ok(found);
        }
        backoff.spin();
    }
    unreachable!()
}
