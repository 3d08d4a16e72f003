//! Where a search comes to, and the walk that lies at its end.
ghost use Rattle.std.specs.Prelude.{◌≡◌, ◌≤◌, ◌<◌, length, All, Contains, IfOk, IsSome, slice_index_or};
ghost use Rattle.deleter.specs.plain_state.declared.slot.SlotId.{SlotId};
ghost use Rattle.heap_audit.specs.Heaps.{slot};
ghost use Rattle.heap_audit.specs.Walks.{rank_of};
ghost use Rattle.heap_audit.specs.Tables.{LeadsBy, Searched, TurnsRound, holder_at};

use crate::marks::Marks;
use deleter::SlotId;
use out_of_memory::OutOfMemory;
use std::alloc::Global;

/// The slots that a search comes to, each once, and the one that it then comes to again.
#[derive(Drop)]
pub struct Trail {
    pub slots: Vec<SlotId>,
    pub again: SlotId,
}

/// Goes from each slot to its holder, until a slot comes twice.
pub fn search(
    alloc: Global,
    holders: &[Option<SlotId>],
    start: SlotId,
) -> Result<Trail, OutOfMemory>
    requires start { start.0 < length holders.now }
    requires held { IsSome (holder_at holders.now start) }
    requires within { (s t : SlotId) → LeadsBy holders.now s t → t.0 < length holders.now }
    requires on { (s t : SlotId) → LeadsBy holders.now s t → IsSome (holder_at holders.now t) }
    ensures { IfOk result (λ trail. Searched holders.now start trail.slots.items trail.again) }
{
    let mut marks = Marks::new(alloc, holders.len())?;
    marks.mark(start)?;
    let mut present = holder_of(holders, start);
    while !marks.marked[present.0 as usize] {
        marks.mark(present)?;
        present = holder_of(holders, present);
    }
    Ok(Trail {
        slots: marks.slots,
        again: present,
    })
}

/// The holder of a slot that has one.
fn holder_of(holders: &[Option<SlotId>], slot: SlotId) -> SlotId
    requires slot { slot.0 < length holders.now }
    requires held { IsSome (holder_at holders.now slot) }
    ensures { LeadsBy holders.now slot result }
{
    match holders[slot.0 as usize] {
        Some(holder) => holder,
        None => unreachable!(),
    }
}

/// What lies between the two comings, against the direction of the search, begun at the slot of least rank.
pub fn turn_round(
    alloc: Global,
    slots: &[SlotId],
    again: SlotId,
    rank: &[u64],
) -> Result<Vec<SlotId>, OutOfMemory>
    requires again { Contains slots.now again }
    requires ranked { All (λ s. s.0 < length rank.now) slots.now }
    ensures { IfOk result (λ walk. TurnsRound rank.now slots.now again walk.items) }
{
    let (_, cycle) = slots.split_at(place_of(slots, again));
    let (low, high) = cycle.split_at(least_place(cycle, rank) + 1);
    let mut walk = Vec::with_capacity(alloc, cycle.len())?;
    walk.extend_from_slice(high)?;
    walk.extend_from_slice(low)?;
    walk.reverse();
    Ok(walk)
}

/// Where a slot first stands in a list that has it.
fn place_of(slots: &[SlotId], slot: SlotId) -> usize
    requires { Contains slots.now slot }
    ensures within { result < length slots.now }
    ensures found { slice_index_or slots.now result slot ≡ slot }
{
    for (i, other) in slots.iter().enumerate() {
        if other.0 == slot.0 {
            return i;
        }
    }
    unreachable!()
}

/// Where the slot of least rank first stands in a list that isn't empty.
fn least_place(slots: &[SlotId], rank: &[u64]) -> usize
    requires some { 0 < length slots.now }
    requires ranked { All (λ s. s.0 < length rank.now) slots.now }
    ensures within { result < length slots.now }
    ensures least { let best = slice_index_or slots.now result (slot 0) in
        All (λ s. rank_of rank.now best ≤ rank_of rank.now s) slots.now }
{
    let mut best = 0;
    for (i, other) in slots.iter().enumerate() {
        if rank[other.0 as usize] < rank[slots[best].0 as usize] {
            best = i;
        }
    }
    best
}
