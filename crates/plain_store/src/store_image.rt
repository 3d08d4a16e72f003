//! A store as words.
ghost use Rattle.std.specs.Prelude.{◌≡◌, ◌<◌, ℕ, IfOk, length, map, slice_index_or, take};
ghost use Rattle.plain_state.specs.declared.slot.SlotId.{SlotId};
ghost use Rattle.plain_state.specs.State.{Plain, slot_at};
ghost use Rattle.plain_state.specs.Steps.{word_of};
ghost use Rattle.plain_state.specs.Images.{image_at, image_of, slot_image};
ghost use Rattle.plain_store.specs.Stores.{plain_of, Kept};

use crate::store::Store;
use crate::tally::count_of;
use out_of_memory::OutOfMemory;
use plain_state::{Kind, PlainSlot, SlotId, SlotImage, ZERO};
use std::alloc::Global;

/// The word of a place.
fn word(content: Option<SlotId>) -> u64
    ensures { result ≡ word_of content }
{
    match content {
        Some(slot) => u64::from(slot.0) + 1,
        None => 0,
    }
}

/// The words of some cells.
pub fn words(alloc: Global, cells: &[Option<SlotId>]) -> Result<Vec<u64>, OutOfMemory>
    ensures { IfOk result (λ v. v.items ≡ map word_of cells.now) }
{
    Ok(cells.iter().map(|cell| word(*cell)).collect(alloc)?)
}

/// The words of one slot, with the sums of the references to it.
fn slot_words(slot: &PlainSlot, strong: u64, weak: u64) -> SlotImage
    ensures { result ≡ image_of slot.now strong weak }
{
    SlotImage {
        strong: if slot.marked { ZERO } else { strong },
        weak,
        fields: [word(slot.first), word(slot.second)],
        weak_field: word(slot.weak_field),
        payload: slot.payload,
    }
}

impl Store {
    /// The words of a slot.
    fn image_of(&self, slot: SlotId) -> SlotImage
        requires kept { Kept self.now }
        requires there { slot.0 < length self.now.slots.items }
        ensures { result ≡ image_at (plain_of self.now) slot }
    {
        let words = self.slots[slot.0 as usize];
        slot_words(
            &words,
            count_of(&self.strong, slot),
            count_of(&self.weak, slot),
        )
    }

    /// What is deferred, in its order.
    pub fn deferred_entries(&self, alloc: Global) -> Result<Vec<(Kind, SlotId)>, OutOfMemory>
        ensures { IfOk result (λ v. v.items ≡ self.now.deferred.items) }
    {
        let (front, back) = self.deferred.as_slices();
        let mut list = front.to_vec(alloc)?;
        list.extend_from_slice(back)?;
        Ok(list)
    }

    /// The words of all slots.
    pub fn slot_images(&self, alloc: Global) -> Result<Vec<SlotImage>, OutOfMemory>
        requires { Kept self.now }
        ensures size { IfOk result (λ v. length v.items ≡ length self.now.slots.items) }
        ensures each { IfOk result (λ v. (s : SlotId) → s.0 < length self.now.slots.items
            → slot_image v.items s ≡ image_at (plain_of self.now) s) }
    {
        let mut images = Vec::with_capacity(alloc, self.slots.len())?;
        for i in 0..self.slots.len() {
            images.push_reserved(self.image_of(SlotId(i as u32)));
        }
        Ok(images)
    }
}
