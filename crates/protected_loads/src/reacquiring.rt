//! An acquire that goes on until the place holds still.
ghost use Rattle.std.specs.Prelude.{◌≡◌, ◌≢◌, ◌<◌, Some};
ghost use Rattle.control_word.specs.plain_state.Limits.{words_of_seat};
ghost use Rattle.control_word.specs.plain_state.declared.slot.SlotId.{SlotId};
ghost use Rattle.control_word.specs.core_events.declared.view.Note.TheVariants as stands;
ghost use Rattle.control_word.specs.core_events.Steps.{HasRoom};
ghost use Rattle.control_word.specs.core_events.Views.{IsReadable, note_of};
ghost use Rattle.control_word.specs.acquire_retire.Calls.{IsOf};
ghost use Rattle.control_word.specs.Moves.{KnowsStill};
ghost use Rattle.control_word.specs.Resting.{IsAtRest};
ghost use Rattle.protected_loads.specs.Retries.{AcquiresAtLast, IsReadyToReacquire};

use crate::acquiring::acquire;
use control_word::{Deed, Domain, EventPlace, Protocol, Seat, SlotId};
use crossbeam_utils::Backoff;
use std::sync::Wait;

/// Protects what the place holds by a note of the seat that stands for nothing, as `acquire` does, which it tries again
/// as long as the place changes between its look and its check; so it may wait for other threads. `None` exactly where
/// the last try found null. At most four steps for each try.
pub fn acquire_at_last<P: Protocol, D: Deed<P>, R: Wait>(
    rt: &R,
    domain: &Domain<P>,
    seat: &mut Seat<P>,
    note: u32,
    place: EventPlace,
    deed: D,
) -> Option<SlotId>
    requires rest { IsAtRest domain.now seat.old }
    requires note { note < words_of_seat }
    requires free { note_of seat.old.view.core note ≡ stands.Idle }
    requires place { IsReadable domain.now.shape seat.old.view.core place }
    requires deed { IsReadyToReacquire P.Kind.fits domain.now place
        (D.next deed domain.now.protocol) (D.allows deed domain.now.protocol) note
        (D.ready deed domain.now.protocol) seat.old }
    ensures acquired { AcquiresAtLast P.Kind.fits domain.now place
        (D.next deed domain.now.protocol) (D.allows deed domain.now.protocol) note result
        seat.old seat.new }
    ensures objects { KnowsStill seat.old.view.core seat.old seat.new }
    ensures room { HasRoom seat.old.view.core → HasRoom seat.new.view.core }
    ensures seat { IsOf domain.now seat.new }
    ensures rest { ((slot : SlotId) → result ≡ Some slot → note ≢ 0)
        → IsAtRest domain.now seat.new }
{
    let backoff = Backoff::new();
    for _ in rt.forever() {
        if let Ok(found) = acquire(domain, seat, note, place, deed, deed) {
            return found;
        }
        backoff.spin();
    }
    unreachable!()
}
