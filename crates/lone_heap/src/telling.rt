//! What a seat that is alone is told of an object: a word, and how many references there are.
ghost use Rattle.std.specs.Prelude.{◌≡◌, ◌<◌, [], slice_index};
ghost use Rattle.protected_loads.specs.plain_state.Limits.{words_of_payload};
ghost use Rattle.protected_loads.specs.plain_state.Places.{Holds};
ghost use Rattle.protected_loads.specs.plain_state.References.{strong_refs, weak_refs};
ghost use Rattle.protected_loads.specs.plain_state.State.{seat_at, slot_at};
ghost use Rattle.plain_settling.specs.plain_store.Settling.{IsSettled};
ghost use Rattle.lone_heap.specs.Lone.{IsReady, known_plain};
ghost use Rattle.lone_heap.specs.Trails.{Shows, counted};

use protected_loads::{
    AnyStep, Domain, NoLaw, PayloadKind, Protocol, Seat, SlotId, strong_count, weak_count,
};

/// A word of the payload of a slot that the seat holds, which is one of the domain's. One step, which changes nothing.
pub fn read<P: Protocol>(domain: &Domain<P>, seat: &mut Seat<P>, slot: SlotId, word: u32) -> u64
    requires ready { IsReady domain.now seat.old }
    requires holds { Holds (seat_at (known_plain domain.now seat.old) 0) slot }
    requires within { word < words_of_payload }
    ensures word { result
        ≡ slice_index (slot_at (known_plain domain.now seat.old) slot).payload word }
    ensures there { slot.0 < domain.now.shape.slots }
    ensures same { known_plain domain.now seat.new ≡ known_plain domain.now seat.old }
    ensures trail { Shows [] seat.old.view.core seat.new.view.core }
    ensures notes { seat.new.view.core.notes ≡ seat.old.view.core.notes }
    ensures ready { IsReady domain.now seat.new }
{
    slot_store::read(domain, seat, slot, word)
}

/// The strong and the weak references to a slot that the seat holds, in a state in which nothing more may go. At most
/// three steps, which change nothing.
pub fn counts<K: PayloadKind>(
    domain: &Domain<NoLaw<K>>,
    seat: &mut Seat<NoLaw<K>>,
    slot: SlotId,
) -> (u64, u64)
    requires ready { IsReady domain.now seat.old }
    requires settled { IsSettled (known_plain domain.now seat.old) }
    requires holds { Holds (seat_at (known_plain domain.now seat.old) 0) slot }
    ensures strong { result.0 ≡ strong_refs (known_plain domain.now seat.old) slot }
    ensures weak { result.1 ≡ weak_refs (known_plain domain.now seat.old) slot }
    ensures same { known_plain domain.now seat.new ≡ known_plain domain.now seat.old }
    ensures trail { Shows (counted slot result) seat.old.view.core seat.new.view.core }
    ensures notes { seat.new.view.core.notes ≡ seat.old.view.core.notes }
    ensures ready { IsReady domain.now seat.new }
{
    let strong = strong_count(domain, seat, slot, AnyStep);
    let weak = weak_count(domain, seat, slot);
    (strong, weak)
}
