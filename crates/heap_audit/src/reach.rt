//! Which slots are reached.
ghost use Rattle.std.specs.Prelude.{◌≤◌, ◌^◌, length, IfOk, OnOk};
ghost use Rattle.deleter.specs.plain_state.Limits.{most_slots};
ghost use Rattle.heap_audit.specs.Heaps.{IsInRange, IsLawful};
ghost use Rattle.heap_audit.specs.Marking.{Follows, IsSpread};
ghost use Rattle.heap_audit.specs.Tables.{AreReached};

use crate::fields::field_counts;
use crate::marks::Marks;
use deleter::{Heap, SlotId};
use out_of_memory::OutOfMemory;
use std::alloc::Global;

/// Whether each slot is reached. A list of what is marked stands in place of a deep stack. Two passes over the slots,
/// and one look at each slot that is reached.
pub fn reached_slots(alloc: Global, heap: &Heap) -> Result<Vec<bool>, OutOfMemory>
    requires few { length heap.now.slots.items ≤ most_slots }
    requires range { IsInRange heap.now }
    requires lawful { IsLawful heap.now }
    ensures { IfOk result (λ marks. AreReached heap.now marks.items) }
{
    let mut marks = roots(alloc, heap)?;
    let mut next = 0;
    while next < marks.slots.len() {
        let slot = marks.slots[next];
        let fields = heap.slots[slot.0 as usize].fields;
        follow(&mut marks, fields[0])?;
        follow(&mut marks, fields[1])?;
        next += 1;
    }
    Ok(marks.marked)
}

/// Marks the slots that more than strong fields hold. On a lawful heap these are just the slots with an owned
/// reference, in a strong cell, or in a deferred strong entry.
fn roots(alloc: Global, heap: &Heap) -> Result<Marks, OutOfMemory>
    requires few { length heap.now.slots.items ≤ most_slots }
    requires range { IsInRange heap.now }
    requires lawful { IsLawful heap.now }
    ensures { IfOk result (λ marks. IsSpread heap.now marks.marked.items marks.slots.items 0) }
{
    let counts = field_counts(alloc, heap)?;
    let mut marks = Marks::new(alloc, heap.slots.len())?;
    for (i, count) in counts.iter().enumerate() {
        let slot = SlotId(i as u32);
        if u64::from(*count) < heap.strong(slot) {
            marks.mark(slot)?;
        }
    }
    Ok(marks)
}

/// Marks the slot that a field's word names, if it names one.
fn follow(marks: &mut Marks, word: u64) -> Result<(), OutOfMemory>
    requires few { length marks.old.marked.items ≤ most_slots }
    requires within { word ≤ length marks.old.marked.items }
    ensures { OnOk result (Follows
        marks.old.marked.items marks.old.slots.items word
        marks.new.marked.items marks.new.slots.items) }
{
    if word == 0 {
        return Ok(());
    }
    marks.mark(SlotId((word - 1) as u32))
}
