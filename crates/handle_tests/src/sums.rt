//! How often references stand in a heap, and whether its words count as many.
use control_word::{Heap, Kind, SlotId};
use std::alloc::{AllocError, Global};

pub(crate) const ZERO: u64 = 9_223_372_036_854_775_808;

/// Counts the slot of a word, if it has one.
fn count_slot(counts: &mut Vec<u64>, word: u64) {
    if word == 0 {
        return;
    }
    if let Some(times) = counts.get_mut((word - 1) as usize) {
        *times = times.saturating_add(1);
    }
}

/// Counts the slots of all of these words.
fn count_all(counts: &mut Vec<u64>, words: &[u64]) {
    for word in words {
        count_slot(counts, *word);
    }
}

/// Counts the slots of the entries of a kind.
fn count_entries(counts: &mut Vec<u64>, kind: Kind, entries: &[(Kind, SlotId)]) {
    for (of, slot) in entries {
        if *of == kind {
            count_slot(counts, u64::from(slot.0) + 1);
        }
    }
}

/// How often the strong and the weak references to each slot stand in cells, in fields and in deferred entries.
pub(crate) fn references(alloc: Global, heap: &Heap) -> Result<(Vec<u64>, Vec<u64>), AllocError> {
    let mut strongs = vec![in alloc; 0; heap.slots.len()]?;
    let mut weaks = vec![in alloc; 0; heap.slots.len()]?;
    count_all(&mut strongs, &heap.cells);
    count_all(&mut weaks, &heap.weak_cells);
    count_entries(&mut strongs, Kind::Strong, &heap.deferred);
    count_entries(&mut weaks, Kind::Weak, &heap.deferred);
    for slot in &heap.slots {
        count_all(&mut strongs, &slot.fields);
        count_slot(&mut weaks, slot.weak_field);
    }
    Ok((strongs, weaks))
}

/// Whether the words of each slot are these sums, where no seat has a reference. An object that isn't destroyed has one
/// weak reference of its own.
pub(crate) fn agrees(heap: &Heap, strongs: &[u64], weaks: &[u64]) -> bool {
    let sums = strongs.iter().zip(weaks.iter());
    heap.slots.iter().zip(sums).all(|(slot, (strong, weak))| {
        if slot.strong >= ZERO {
            *strong == 0 && slot.weak.abs_diff(*weak) <= 1
        } else {
            slot.strong == *strong && slot.weak.abs_diff(*weak) == 1
        }
    })
}
