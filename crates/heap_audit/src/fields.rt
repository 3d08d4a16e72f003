//! How many strong fields hold each slot.
ghost use Rattle.std.specs.Prelude.{◌≡◌, ◌<◌, ◌≤◌, ◌+◌, ◌^◌, length, All, IfOk, slice_index, sum_by};
ghost use Rattle.heap_audit.specs.Heaps.{HasFieldsWithin, IsInRange, fields_holding};
ghost use Rattle.deleter.specs.plain_state.Limits.{most_slots};
ghost use Rattle.deleter.specs.plain_state.declared.slot.SlotId.{SlotId};
ghost use Rattle.heap_audit.specs.Tables.{CountsWord, CountsFields, AreFieldCounts};

use deleter::{Heap, SlotImage};
use out_of_memory::OutOfMemory;
use std::alloc::Global;

/// How many strong fields hold each slot. One look at each slot.
pub fn field_counts(alloc: Global, heap: &Heap) -> Result<Vec<u32>, OutOfMemory>
    requires few { length heap.now.slots.items ≤ most_slots }
    requires range { IsInRange heap.now }
    ensures { IfOk result (λ counts. AreFieldCounts heap.now counts.items) }
{
    let mut counts = vec![in alloc; 0u32; heap.slots.len()]?;
    count_all(&mut counts, &heap.slots);
    Ok(counts)
}

/// Counts the strong fields of all slots.
fn count_all(counts: &mut [u32], slots: &[SlotImage])
    requires few { length slots.now ≤ most_slots }
    requires size { length counts.old ≡ length slots.now }
    requires none { (s : SlotId) → slice_index counts.old s.0 ≡ 0 }
    requires within { All (HasFieldsWithin (length slots.now)) slots.now }
    ensures { (s : SlotId) → s.0 < length slots.now
        → slice_index counts.new s.0 ≡ sum_by (fields_holding s) slots.now }
{
    for slot in slots {
        count_fields(counts, slot);
    }
}

/// Counts the two strong fields of a slot.
fn count_fields(counts: &mut [u32], slot: &SlotImage)
    requires within { HasFieldsWithin (length counts.old) slot.now }
    requires room { All (λ n. n + 2 < 2 ^ 32) counts.old }
    ensures { CountsFields slot.now counts.old counts.new }
{
    count_field(counts, slot.fields[0]);
    count_field(counts, slot.fields[1]);
}

/// Counts one more field that holds the slot that the word names, if it names one.
fn count_field(counts: &mut [u32], word: u64)
    requires within { word ≤ length counts.old }
    requires room { All (λ n. n + 1 < 2 ^ 32) counts.old }
    ensures counted { CountsWord word counts.old counts.new }
    ensures bound { (top : _) → All (λ n. n < top) counts.old → All (λ n. n < top + 1) counts.new }
{
    if word != 0 {
        counts[(word - 1) as usize] += 1;
    }
}
