//! Whether the numbers of an event are in their ranges.
ghost use Rattle.std.specs.Prelude.{◌↔◌, IsTrue};
ghost use Rattle.cdrc_steps.specs.Ranges.{HasNumbersOf, HasPlace, HasSlot, IsInRange};

use cdrc_core::{Act, Event, EventPlace, Shape, SlotId, is_content};

fn has_slot(shape: &Shape, slot: SlotId) -> bool
    ensures { IsTrue result ↔ HasSlot shape.now slot }
{
    slot.0 < shape.slots
}

fn has_place(shape: &Shape, place: EventPlace) -> bool
    ensures { IsTrue result ↔ HasPlace shape.now place }
{
    match place {
        EventPlace::Cell(cell) => cell < shape.cells,
        EventPlace::Field(slot, _) | EventPlace::WeakField(slot) => has_slot(shape, slot),
        EventPlace::WeakCell(cell) => cell < shape.weak_cells,
    }
}

fn has_numbers_of(shape: &Shape, act: Act) -> bool
    ensures { IsTrue result ↔ HasNumbersOf shape.now act }
{
    match act {
        Act::Add(slot)
        | Act::Drop(slot)
        | Act::Count(slot)
        | Act::Claim(slot)
        | Act::Wadd(slot)
        | Act::Wdrop(slot)
        | Act::Destroy(slot)
        | Act::Wcount(slot) => has_slot(shape, slot),
        Act::Announce(note, _, slot) => note < 4 && has_slot(shape, slot),
        Act::Release(note) | Act::Alive(note) => note < 4,
        Act::Look(place) => has_place(shape, place),
        Act::Check(note, place) => note < 4 && has_place(shape, place),
        Act::Swap(place, new) => has_place(shape, place) && is_content(shape, new),
        Act::Cas(place, old, new) => {
            has_place(shape, place) && is_content(shape, old) && is_content(shape, new)
        }
        Act::Fill(word, _) => word < 16,
        Act::See(slot, word) => has_slot(shape, slot) && word < 16,
        Act::Leave(seat) => seat < shape.seats,
        Act::Pay
        | Act::Finish
        | Act::Take
        | Act::Mark
        | Act::Scan
        | Act::Arm
        | Act::Start
        | Act::Free
        | Act::Ticket => true,
    }
}

/// Whether the seat, and the slots, notes, cells and payload places of the event are there. Constant.
pub fn is_in_range(shape: &Shape, event: Event) -> bool
    ensures { IsTrue result ↔ IsInRange shape.now event }
{
    event.seat < shape.seats && has_numbers_of(shape, event.act)
}
