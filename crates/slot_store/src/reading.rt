//! A payload word of an object, as a seat that has its slot reads it.
ghost use Rattle.std.specs.Prelude.{◌≡◌, ◌<◌, slice_index};
ghost use Rattle.protocol_pairs.specs.plain_state.Limits.{words_of_payload};
ghost use Rattle.claim_law.specs.core_events.Views.{Holds};
ghost use Rattle.retiring_stores.specs.domain_rule.Views.{object_in};
ghost use Rattle.claim_law.specs.core_events.Steps.{HasRoom};
ghost use Rattle.retiring_stores.specs.control_word.Moves.{KnowsStill};
ghost use Rattle.retiring_stores.specs.control_word.Resting.{IsAtRest};
ghost use Rattle.slot_store.specs.Calls.{SeesWord};

use protocol_pairs::Protocol;
use retiring_stores::{Domain, Outcome, Seat, SlotId};

/// A payload word of the object in a slot that the seat holds: what the slot was made with, and what the domain shows
/// at the step. One step.
pub fn read<P: Protocol>(domain: &Domain<P>, seat: &mut Seat<P>, slot: SlotId, word: u32) -> u64
    requires rest { IsAtRest domain.now seat.old }
    requires holds { Holds seat.old.view.core slot }
    requires within { word < words_of_payload }
    ensures read { result ≡ slice_index (object_in seat.old.view slot).payload word }
    ensures seen { SeesWord P.Kind.fits domain.now slot word result seat.old seat.new }
    ensures client { seat.new.view.client ≡ seat.old.view.client }
    ensures notes { seat.new.view.core.notes ≡ seat.old.view.core.notes }
    ensures objects { KnowsStill seat.old.view.core seat.old seat.new }
    ensures room { HasRoom seat.old.view.core → HasRoom seat.new.view.core }
    ensures rest { IsAtRest domain.now seat.new }
{
    match domain.see(seat, slot, word) {
        Outcome::Word(found) => found,
        _ => 0,
    }
}
