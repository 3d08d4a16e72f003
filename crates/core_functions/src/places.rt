//! Where the words are that acts work on, by the order of a domain's words, and what else its sizes tell.
ghost use Rattle.std.specs.Prelude.{◌≡◌, ◌↔◌, ◌<◌, ◌^◌, IsTrue};
ghost use Rattle.core_events.specs.plain_state.Places.{place_kind};
ghost use Rattle.core_events.specs.Words.{announcements, note_at, slot_at, place_at, payload_at, bits_at, ticket_at};
ghost use Rattle.core_events.specs.Views.{room_of};
ghost use Rattle.core_events.specs.Steps.{counter_at, IsContent};

use core_events::{EventPlace, Kind, Shape, SlotId, WORDS_OF_SEAT, WORDS_OF_SLOT};

/// The kind of the references that a place holds.
pub fn kind_of(place: EventPlace) -> Kind
    ensures { result ≡ place_kind place }
{
    match place {
        EventPlace::Cell(_) | EventPlace::Field(_, _) => Kind::Strong,
        EventPlace::WeakCell(_) | EventPlace::WeakField(_) => Kind::Weak,
    }
}

/// Whether a content is null, or a slot of the domain.
pub fn is_content(shape: &Shape, content: Option<SlotId>) -> bool
    ensures { IsTrue result ↔ IsContent shape.now content }
{
    match content {
        None => true,
        Some(slot) => slot.0 < shape.slots,
    }
}

/// How many entries a seat may have retired and owed together, as long as no other has left.
pub fn room_for(shape: &Shape) -> u32
    requires { room_of shape.now < 2 ^ 32 }
    ensures { result ≡ room_of shape.now }
{
    WORDS_OF_SEAT * shape.seats + shape.batch
}

/// How many announcement words there are.
pub fn announcement_words(shape: &Shape) -> usize
    ensures at { result ≡ announcements shape.now }
    ensures fits { result < 2 ^ 34 }
{
    WORDS_OF_SEAT as usize * shape.seats as usize
}

/// The first word of a slot, its strong one.
pub fn slot_index(shape: &Shape, slot: SlotId) -> usize
    ensures at { result ≡ slot_at shape.now slot.0 }
    ensures fits { result < 2 ^ 38 }
{
    1 + announcement_words(shape)
        + shape.cells as usize
        + shape.weak_cells as usize
        + WORDS_OF_SLOT * slot.0 as usize
}

/// A word of a slot's payload.
pub fn payload_index(shape: &Shape, slot: SlotId, at: u32) -> usize
    ensures { result ≡ payload_at shape.now slot at }
{
    slot_index(shape, slot) + 5 + at as usize
}

/// An announcement word of a seat.
pub fn note_index(seat: u32, at: u32) -> usize
    ensures { result ≡ note_at seat at }
{
    1 + WORDS_OF_SEAT as usize * seat as usize + at as usize
}

/// The counter word of a reference. None is of the kind `Disposal`, and the answer is 0.
pub fn counter_index(shape: &Shape, kind: Kind, slot: SlotId) -> usize
    ensures { result ≡ counter_at shape.now kind slot }
{
    match kind {
        Kind::Strong => slot_index(shape, slot),
        Kind::Weak => slot_index(shape, slot) + 1,
        Kind::Disposal => 0,
    }
}

/// The word that has the bit of a slot.
pub fn bits_index(shape: &Shape, slot: SlotId) -> usize
    ensures { result ≡ bits_at shape.now slot }
{
    slot_index(shape, SlotId(shape.slots)) + slot.0 as usize / 64
}

/// The word that has the number of tickets drawn, the last one.
pub fn ticket_index(shape: &Shape) -> usize
    ensures { result ≡ ticket_at shape.now }
{
    slot_index(shape, SlotId(shape.slots)) + (shape.slots as usize + 63) / 64
}

/// The word of a place.
pub fn place_index(shape: &Shape, place: EventPlace) -> usize
    ensures { result ≡ place_at shape.now place }
{
    match place {
        EventPlace::Cell(cell) => 1 + announcement_words(shape) + cell as usize,
        EventPlace::Field(slot, field) => slot_index(shape, slot) + 2 + field as usize,
        EventPlace::WeakCell(cell) => {
            1 + announcement_words(shape) + shape.cells as usize + cell as usize
        }
        EventPlace::WeakField(slot) => slot_index(shape, slot) + 4,
    }
}
