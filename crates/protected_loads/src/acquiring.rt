//! Protecting what a place holds.
ghost use Rattle.std.specs.Prelude.{◌≡◌, ◌≢◌, ◌<◌, IfErr, IfOk, IfSome, None, Ok, Some};
ghost use Rattle.control_word.specs.plain_state.Limits.{words_of_seat};
ghost use Rattle.control_word.specs.plain_state.declared.slot.SlotId.{SlotId};
ghost use Rattle.control_word.specs.core_events.declared.act.Act.TheVariants as act;
ghost use Rattle.control_word.specs.core_events.declared.view.Note.TheVariants as stands;
ghost use Rattle.control_word.specs.core_events.Steps.{HasRoom};
ghost use Rattle.control_word.specs.core_events.Views.{IsReadable, note_of};
ghost use Rattle.control_word.specs.acquire_retire.Calls.{IsOf, IsReady};
ghost use Rattle.control_word.specs.Moves.{KnowsStill};
ghost use Rattle.control_word.specs.Resting.{IsAtRest};
ghost use Rattle.protected_loads.specs.Loads.{FindsNull, IsReadyToCheck, Misses, Protects};

use crate::where_null::WhereNull;
use control_word::{Deed, Domain, EventPlace, Outcome, Protocol, Seat, SlotId, kind_of};

/// What a place held at two steps, the second after the announcement of what it held at the first.
#[derive(Clone, Copy, PartialEq, Eq, Debug, Drop)]
pub struct Moved {
    pub seen: Option<SlotId>,
    pub now: Option<SlotId>,
}

/// Protects what the place holds by a note of the seat that stands for nothing: where it holds a slot still after the
/// slot was announced, the note stands for a snapshot then, and its kind is the place's. `None` exactly where the first
/// step found null, and it is the only step then. `Moved` exactly where the place held another content after the
/// announcement; the announcement is taken back, and nothing has changed but the trail. The first deed holds at the
/// look where that finds null, else the second one at the check. At most four steps.
// A load waits for its answer where that is handed over in memory.
#[inline(always)]
pub fn acquire<P: Protocol, L: Deed<P>, C: Deed<P>>(
    domain: &Domain<P>,
    seat: &mut Seat<P>,
    note: u32,
    place: EventPlace,
    look: L,
    check: C,
) -> Result<Option<SlotId>, Moved>
    requires rest { IsAtRest domain.now seat.old }
    requires note { note < words_of_seat }
    requires free { note_of seat.old.view.core note ≡ stands.Idle }
    requires place { IsReadable domain.now.shape seat.old.view.core place }
    requires look { IsReady (L.ready look domain.now.protocol) domain.now.shape (act.Look place)
        seat.old.view }
    requires check { IsReadyToCheck P.Kind.fits domain.now note place
        (C.ready check domain.now.protocol) seat.old }
    ensures null { result ≡ Ok None → FindsNull P.Kind.fits domain.now place
        (L.next look domain.now.protocol) (L.allows look domain.now.protocol) seat.old seat.new }
    ensures protected { IfOk result (λ found. IfSome found (λ slot.
        Protects P.Kind.fits domain.now note place (C.next check domain.now.protocol)
        (C.allows check domain.now.protocol) slot seat.old seat.new)) }
    ensures moved { IfErr result (λ moved. Misses P.Kind.fits domain.now note place
        (C.next check domain.now.protocol) (C.allows check domain.now.protocol) moved.seen
        moved.now seat.old seat.new) }
    ensures objects { KnowsStill seat.old.view.core seat.old seat.new }
    ensures room { HasRoom seat.old.view.core → HasRoom seat.new.view.core }
    ensures seat { IsOf domain.now seat.new }
    ensures rest { ((slot : SlotId) → result ≡ Ok (Some slot) → note ≢ 0)
        → IsAtRest domain.now seat.new }
{
    let Outcome::Found(found) = domain.look(seat, place, WhereNull { deed: look, place }) else {
        unreachable!()
    };
    let Some(slot) = found else {
        return Ok(None);
    };
    domain.announce(seat, note, kind_of(place), slot);
    if let Outcome::Moved(now) = domain.check(seat, note, place, check) {
        domain.release(seat, note);
        return Err(Moved {
            seen: Some(slot),
            now,
        });
    }
    Ok(Some(slot))
}
