//! The places of the heap that a script names.
use crate::kind::ScriptKind;
use plain_audit::PlainHeap;
use plain_settling::{EventPlace, Hand, PlainPlace, PlainWeakPlace, SlotId, WeakHand};
use script_lines::OutOfMemory;

/// A place for strong references, or one for weak ones.
#[derive(Clone, Copy, Debug, Drop)]
pub(crate) enum HeapPlace {
    Strong(PlainPlace),
    Weak(PlainWeakPlace),
}

impl HeapPlace {
    ghost use Rattle.std.specs.Prelude.{◌≡◌, OnOk, OnErr};
    ghost use Rattle.plain_audit.specs.plain_state.Places.{IsOpen, place_kind};
    ghost use Rattle.plain_audit.specs.plain_state.State.{seat_at};
    ghost use Rattle.plain_settling.specs.plain_store.Calls.{MayGive, Puts};
    ghost use Rattle.script_desk.specs.Places.{event_place};

    /// The same place, as the calls of the heap take it.
    pub fn of(place: EventPlace) -> HeapPlace
        ensures { event_place result ≡ place }
    {
        match place {
            EventPlace::Cell(cell) => HeapPlace::Strong(PlainPlace::Cell(cell)),
            EventPlace::Field(slot, field) => HeapPlace::Strong(PlainPlace::Field(slot, field)),
            EventPlace::WeakCell(cell) => HeapPlace::Weak(PlainWeakPlace::Cell(cell)),
            EventPlace::WeakField(slot) => HeapPlace::Weak(PlainWeakPlace::Field(slot)),
        }
    }

    /// The place holds what the slot's handle refers to, or null.
    pub fn put(
        self,
        heap: &mut PlainHeap<ScriptKind>,
        slot: Option<SlotId>,
    ) -> Result<(), OutOfMemory>
        requires opened { IsOpen heap.old 0 (event_place self) }
        requires given { MayGive (place_kind (event_place self)) slot (seat_at heap.old 0) }
        ensures puts { OnOk result (Puts heap.old (event_place self) slot heap.new) }
        ensures err { OnErr result (heap.new ≡ heap.old) }
    {
        let put = match self {
            HeapPlace::Strong(place) => heap.put(place, slot.map(Hand::of)).is_ok(),
            HeapPlace::Weak(place) => heap.put_weak(place, slot.map(WeakHand::of)).is_ok(),
        };
        if put { Ok(()) } else { Err(OutOfMemory) }
    }
}
