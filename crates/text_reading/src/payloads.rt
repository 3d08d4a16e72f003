//! The payload of an object, as a seat that holds its slot reads it.
ghost use Rattle.std.specs.Prelude.{◌≡◌, length};
ghost use Rattle.slot_store.specs.core_events.Views.{HoldsStrongly};
ghost use Rattle.slot_store.specs.domain_rule.Views.{object_in};
ghost use Rattle.slot_store.specs.control_word.Moves.{KnowsStill};
ghost use Rattle.slot_store.specs.control_word.Resting.{IsAtRest};
ghost use Rattle.text_reading.specs.Going.{ComesTo};

use slot_store::{Domain, Seat, read};
use snapshot_ptr::{Protocol, SlotId};

/// The payload of the object in a slot that the seat holds strongly, in 16 steps.
pub(crate) fn payload_of<P: Protocol>(
    domain: &Domain<P>,
    seat: &mut Seat<P>,
    slot: SlotId,
) -> [u64; 16]
    requires rest { IsAtRest domain.now seat.old }
    requires held { HoldsStrongly seat.old.view.core slot }
    ensures payload { result ≡ (object_in seat.old.view slot).payload }
    ensures fits { P.Kind.fits result }
    ensures core { ComesTo 16 seat.old.view.core seat.old.view.core seat.new.view.core }
    ensures four { length seat.old.view.core.notes ≡ 4 }
    ensures client { seat.new.view.client ≡ seat.old.view.client }
    ensures objects { KnowsStill seat.old.view.core seat.old seat.new }
    ensures rest { IsAtRest domain.now seat.new }
{
    let mut words = [0; 16];
    for word in 0..16u32 {
        words[word as usize] = read(domain, seat, slot, word);
    }
    words
}
