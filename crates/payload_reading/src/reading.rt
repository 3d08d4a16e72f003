//! The payload of an object, as a seat that holds its slot reads it.
ghost use Rattle.std.specs.Prelude.{◌≡◌};
ghost use Rattle.slot_store.specs.core_events.Steps.{HasRoom};
ghost use Rattle.slot_store.specs.core_events.Views.{CanReadFields, Holds};
ghost use Rattle.slot_store.specs.control_word.Moves.{KnowsStill};
ghost use Rattle.slot_store.specs.control_word.Resting.{IsAtRest};
ghost use Rattle.slot_store.specs.domain_rule.Views.{object_in};
ghost use Rattle.payload_reading.specs.Reading.{SeesPayload};

use protocol_pairs::Protocol;
use slot_store::{Domain, Seat, SlotId, read};

/// The sixteen payload words of the object in a slot that the seat holds: what the object was made with. They fit the
/// protocol's kind where the seat owns a strong reference to the slot, or is under a strong or a weak snapshot of it.
/// Never refused; what the seat has stays. 16 steps.
pub fn read_all<P: Protocol>(domain: &Domain<P>, seat: &mut Seat<P>, slot: SlotId) -> [u64; 16]
    requires rest { IsAtRest domain.now seat.old }
    requires holds { Holds seat.old.view.core slot }
    ensures payload { result ≡ (object_in seat.old.view slot).payload }
    ensures fits { CanReadFields seat.old.view.core slot → P.Kind.fits result }
    ensures seen { SeesPayload P.Kind.fits domain.now slot result seat.old seat.new }
    ensures client { seat.new.view.client ≡ seat.old.view.client }
    ensures notes { seat.new.view.core.notes ≡ seat.old.view.core.notes }
    ensures objects { KnowsStill seat.old.view.core seat.old seat.new }
    ensures room { HasRoom seat.old.view.core → HasRoom seat.new.view.core }
    ensures rest { IsAtRest domain.now seat.new }
{
    let mut words = [0; 16];
    for word in 0..16u32 {
        words[word as usize] = read(domain, seat, slot, word);
    }
    words
}
