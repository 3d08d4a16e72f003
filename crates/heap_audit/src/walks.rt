//! Whether a list of slots goes round a cycle of strong fields.
ghost use Rattle.std.specs.Prelude.{◌↔◌, ◌<◌, IsTrue};
ghost use Rattle.heap_audit.specs.Heaps.{fields_holding};
ghost use Rattle.heap_audit.specs.Reached.{HasField};
ghost use Rattle.heap_audit.specs.Walks.{IsWalk};

use crate::word::is_live;
use deleter::{Heap, SlotId, SlotImage};

/// True exactly where the walk isn't empty, all its slots are Live, and each has a strong field that holds the next,
/// the last one the first. One look at a slot for each slot of the walk.
pub fn check_walk(heap: &Heap, walk: &[SlotId]) -> bool
    ensures { IsTrue result ↔ IsWalk heap.now walk.now }
{
    let Some((start, rest)) = walk.split_first() else {
        return false;
    };
    let mut present = *start;
    for next in rest {
        if !has_field(heap, present, *next) {
            return false;
        }
        present = *next;
    }
    has_field(heap, present, *start)
}

/// Whether `holder` is Live and one of its strong fields holds `held`.
fn has_field(heap: &Heap, holder: SlotId, held: SlotId) -> bool
    ensures { IsTrue result ↔ HasField heap.now holder held }
{
    match heap.slots.get(holder.0 as usize) {
        Some(slot) => is_live(slot.strong) && holds(slot, held),
        None => false,
    }
}

/// Whether one of the two strong fields holds `held`.
#[tactic(auto, unfolding(crate::specs::Heaps::fields_holding, crate::specs::Heaps::held))]
fn holds(slot: &SlotImage, held: SlotId) -> bool
    ensures { IsTrue result ↔ (0 < fields_holding held slot.now) }
{
    let word = u64::from(held.0) + 1;
    slot.fields[0] == word || slot.fields[1] == word
}
