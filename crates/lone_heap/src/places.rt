//! What a seat that is alone puts into places.
ghost use Rattle.std.specs.Prelude.{◌≡◌, [], IfSome};
ghost use Rattle.protected_loads.specs.plain_state.Places.{Holds, IsOpen, place_kind};
ghost use Rattle.protected_loads.specs.plain_state.State.{seat_at};
ghost use Rattle.plain_settling.specs.plain_store.Calls.{MayGive, Puts, Tries};
ghost use Rattle.protected_loads.specs.core_events.Steps.{IsContent};
ghost use Rattle.lone_heap.specs.Lone.{IsReady, ThenTidies, known_plain};
ghost use Rattle.lone_heap.specs.Trails.{Shows, ShowsPut, ShowsTry};

use crate::telling::read;
use protected_loads::{AnyStep, Domain, NoLaw, PayloadKind, Protocol, Seat, SlotId};
use slot_store::EventPlace;
use snapshot_ptr::{compare_exchange, exchange};

/// The place holds the new slot, of whose references the seat gives up one, or null. What it held is deferred, and
/// where so many entries are that a scan is due some may go at once. One step, and a collect where one is due.
pub fn put<K: PayloadKind>(
    domain: &Domain<NoLaw<K>>,
    seat: &mut Seat<NoLaw<K>>,
    place: EventPlace,
    new: Option<SlotId>,
)
    requires ready { IsReady domain.now seat.old }
    requires opened { IsOpen (known_plain domain.now seat.old) 0 place }
    requires given { MayGive (place_kind place) new (seat_at (known_plain domain.now seat.old) 0) }
    ensures puts { ThenTidies (Puts (known_plain domain.now seat.old) place new)
        (known_plain domain.now seat.new) }
    ensures trail { ShowsPut place new seat.old.view.core seat.new.view.core }
    ensures notes { seat.new.view.core.notes ≡ seat.old.view.core.notes }
    ensures ready { IsReady domain.now seat.new }
{
    exchange(domain, seat, place, new, AnyStep);
}

/// The same where the place holds the expected slot, which the seat holds, or null; then true. Else false, and the
/// plain state is as it was. Two steps, and a collect where one is due.
pub fn try_put<K: PayloadKind>(
    domain: &Domain<NoLaw<K>>,
    seat: &mut Seat<NoLaw<K>>,
    place: EventPlace,
    expected: Option<SlotId>,
    new: Option<SlotId>,
) -> bool
    requires ready { IsReady domain.now seat.old }
    requires opened { IsOpen (known_plain domain.now seat.old) 0 place }
    requires held { IfSome expected (Holds (seat_at (known_plain domain.now seat.old) 0)) }
    requires given { MayGive (place_kind place) new (seat_at (known_plain domain.now seat.old) 0) }
    ensures tries { ThenTidies (Tries (known_plain domain.now seat.old) place expected new result)
        (known_plain domain.now seat.new) }
    ensures trail { ShowsTry place expected new result seat.old.view.core seat.new.view.core }
    ensures notes { seat.new.view.core.notes ≡ seat.old.view.core.notes }
    ensures ready { IsReady domain.now seat.new }
{
    find(domain, seat, expected);
    compare_exchange(domain, seat, place, expected, new, AnyStep).is_ok()
}

/// Tells that the slot, which the seat holds, is one of the domain's. A step tells that, and so a word is read.
fn find<P: Protocol>(domain: &Domain<P>, seat: &mut Seat<P>, slot: Option<SlotId>)
    requires ready { IsReady domain.now seat.old }
    requires held { IfSome slot (Holds (seat_at (known_plain domain.now seat.old) 0)) }
    ensures there { IsContent domain.now.shape slot }
    ensures same { known_plain domain.now seat.new ≡ known_plain domain.now seat.old }
    ensures trail { Shows [] seat.old.view.core seat.new.view.core }
    ensures notes { seat.new.view.core.notes ≡ seat.old.view.core.notes }
    ensures ready { IsReady domain.now seat.new }
{
    if let Some(slot) = slot {
        read(domain, seat, slot, 0);
    }
}
