//! Single reads of a seat that walks down.
ghost use Rattle.std.specs.Prelude.{◌≡◌, ◌<◌, IfSome, length, slice_index};
ghost use Rattle.protected_loads.specs.plain_state.declared.slot.Kind.TheVariants.{Strong};
ghost use Rattle.protected_loads.specs.core_events.declared.view.Note.TheVariants as stands;
ghost use Rattle.protected_loads.specs.core_events.Views.{HoldsStrongly, note_of};
ghost use Rattle.protected_loads.specs.domain_rule.Views.{object_in};
ghost use Rattle.protected_loads.specs.control_word.Moves.{KnowsStill};
ghost use Rattle.version_reading.specs.Reading.{HasNode, IsReading, KnowsSide, Reads, freed, held_by};

use crate::deeds::ReadSide;
use map_protocol::MapLaw;
use protected_loads::{Domain, EventPlace, Kind, Outcome, Seat, SlotId};

/// A payload word of a node that the seat holds strongly. One step.
pub(crate) fn read_word(
    domain: &Domain<MapLaw>,
    seat: &mut Seat<MapLaw>,
    slot: SlotId,
    word: u32,
) -> u64
    requires reading { IsReading domain.now seat.old }
    requires held { HoldsStrongly seat.old.view.core slot }
    requires within { word < 16 }
    ensures word { result ≡ slice_index (object_in seat.old.view slot).payload word }
    ensures four { length seat.old.view.core.notes ≡ 4 }
    ensures reads { Reads seat.old.view.core seat.old seat.new }
    ensures knows { KnowsStill seat.old.view.core seat.old seat.new }
{
    match domain.see(seat, slot, word) {
        Outcome::Word(found) => found,
        _ => 0,
    }
}

/// What a field of a node holds, under a snapshot by this word, which stands for nothing before. What the look finds
/// stays as long as the node lives, so the check finds it too. Three steps, or one where the field holds null.
pub(crate) fn hold_side(
    domain: &Domain<MapLaw>,
    seat: &mut Seat<MapLaw>,
    slot: SlotId,
    side: u32,
    word: u32,
) -> Option<SlotId>
    requires reading { IsReading domain.now seat.old }
    requires node { HasNode slot seat.old }
    requires side { side < 2 }
    requires word { word < 4 }
    requires free { note_of seat.old.view.core word ≡ stands.Idle }
    ensures reads { Reads (held_by word result seat.old.view.core) seat.old seat.new }
    ensures knows { KnowsStill seat.old.view.core seat.old seat.new }
    ensures side { KnowsSide slot side result seat.new }
    ensures node { IfSome result (λ found. HasNode found seat.new) }
{
    let place = EventPlace::Field(slot, side);
    let deed = ReadSide { slot, side };
    let Outcome::Found(found) = domain.look(seat, place, deed) else {
        unreachable!()
    };
    if let Some(kid) = found {
        domain.announce(seat, word, Kind::Strong, kid);
        domain.check(seat, word, place, deed);
    }
    found
}

/// The word by which the seat holds a slot stands for nothing again, in one step, if there is one.
pub(crate) fn let_go(
    domain: &Domain<MapLaw>,
    seat: &mut Seat<MapLaw>,
    slot: SlotId,
    word: Option<u32>,
)
    requires reading { IsReading domain.now seat.old }
    requires held { IfSome word (λ j. note_of seat.old.view.core j ≡ stands.Valid Strong slot) }
    requires within { IfSome word (λ j. j < 4) }
    ensures reads { Reads (freed word seat.old.view.core) seat.old seat.new }
    ensures knows { KnowsStill (freed word seat.old.view.core) seat.old seat.new }
{
    if let Some(word) = word {
        domain.release(seat, word);
    }
}
