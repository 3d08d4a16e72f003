//! A heap as words: what an audit reads.
ghost use Rattle.std.specs.Prelude.{◌≡◌, ◌<◌, length};
ghost use Rattle.plain_state.specs.Images.{slot_image};
ghost use Rattle.counter_word.specs.Words.{value};

use crate::slot::{Kind, SlotId};
use counter_word::value;

/// The words of one slot. A field is 0 for null, else the slot's number and one.
#[derive(Clone, Copy, PartialEq, Eq, Debug, Drop)]
pub struct SlotImage {
    pub strong: u64,
    pub weak: u64,
    pub fields: [u64; 2],
    pub weak_field: u64,
    pub payload: [u64; 16],
}

/// The words of a heap, and the decrements that are deferred.
#[derive(Debug, Drop)]
pub struct Heap {
    pub slots: Vec<SlotImage>,
    pub cells: Vec<u64>,
    pub weak_cells: Vec<u64>,
    pub deferred: Vec<(Kind, SlotId)>,
}

impl Heap {
    /// The strong count of a slot: 0 where its zero flag stands.
    pub fn strong(&self, slot: SlotId) -> u64
        requires { slot.0 < length self.now.slots.items }
        ensures { result ≡ value (slot_image self.now.slots.items slot).strong }
    {
        value(self.slots[slot.0 as usize].strong)
    }

    /// The weak word of a slot.
    pub fn weak(&self, slot: SlotId) -> u64
        requires { slot.0 < length self.now.slots.items }
        ensures { result ≡ (slot_image self.now.slots.items slot).weak }
    {
        self.slots[slot.0 as usize].weak
    }
}
