//! The walk that is found among the unreached slots.
ghost use Rattle.std.specs.Prelude.{◌≡◌, ◌≤◌, ◌<◌, ◌↔◌, ◌^◌, length, IfOk, IfSome, IsTrue, None};
ghost use Rattle.deleter.specs.plain_state.Limits.{most_slots};
ghost use Rattle.deleter.specs.plain_state.declared.slot.SlotId.{SlotId};
ghost use Rattle.heap_audit.specs.Heaps.{slot, IsInRange, IsLawful};
ghost use Rattle.heap_audit.specs.Reached.{IsUnreached, HowMany};
ghost use Rattle.heap_audit.specs.Walks.{IsLeast, IsFound};
ghost use Rattle.heap_audit.specs.Tables.{AreReached, AreHolders, IsLeastIfAny, Offers, holder_at};

use crate::ranks::lower;
use crate::trails::{search, turn_round};
use crate::word::is_live;
use deleter::{Heap, SlotId};
use out_of_memory::OutOfMemory;
use std::alloc::Global;

/// Whether a slot is Live and unreached.
pub fn is_unreached(heap: &Heap, reached: &[bool], slot: SlotId) -> bool
    requires slot { slot.0 < length heap.now.slots.items }
    requires table { AreReached heap.now reached.now }
    ensures { IsTrue result ↔ IsUnreached heap.now slot }
{
    let place = slot.0 as usize;
    is_live(heap.slots[place].strong) && !reached[place]
}

/// The walk that is found from the unreached slot of least rank. One look at each slot, and one step for each slot that
/// the search comes to.
pub fn find_walk(
    alloc: Global,
    heap: &Heap,
    reached: &[bool],
    rank: &[u64],
    start: SlotId,
) -> Result<Vec<SlotId>, OutOfMemory>
    requires few { length heap.now.slots.items ≤ most_slots }
    requires range { IsInRange heap.now }
    requires lawful { IsLawful heap.now }
    requires table { AreReached heap.now reached.now }
    requires ranked { length rank.now ≡ length heap.now.slots.items }
    requires start { IsLeast rank.now (IsUnreached heap.now) start }
    ensures { IfOk result (λ walk. IsFound heap.now rank.now walk.items) }
{
    let holders = least_holders(alloc, heap, reached, rank)?;
    let trail = search(alloc, &holders, start)?;
    let walk = turn_round(alloc, &trail.slots, trail.again, rank)?;
    Ok(walk)
}

/// For each slot the unreached slot of least rank that has a strong field holding it. One look at each slot.
fn least_holders(
    alloc: Global,
    heap: &Heap,
    reached: &[bool],
    rank: &[u64],
) -> Result<Vec<Option<SlotId>>, OutOfMemory>
    requires few { length heap.now.slots.items ≤ most_slots }
    requires range { IsInRange heap.now }
    requires table { AreReached heap.now reached.now }
    requires ranked { length rank.now ≡ length heap.now.slots.items }
    ensures { IfOk result (λ holders. AreHolders heap.now rank.now holders.items) }
{
    let mut holders = vec![in alloc; None; heap.slots.len()]?;
    offer_all(&mut holders, heap, reached, rank);
    Ok(holders)
}

/// Offers each unreached slot to the slots that its fields hold.
fn offer_all(holders: &mut [Option<SlotId>], heap: &Heap, reached: &[bool], rank: &[u64])
    requires few { length heap.now.slots.items ≤ most_slots }
    requires range { IsInRange heap.now }
    requires table { AreReached heap.now reached.now }
    requires ranked { length rank.now ≡ length heap.now.slots.items }
    requires size { length holders.old ≡ length heap.now.slots.items }
    requires none { (s : SlotId) → holder_at holders.old s ≡ None }
    ensures { AreHolders heap.now rank.now holders.new }
{
    for i in 0..heap.slots.len() {
        let holder = SlotId(i as u32);
        if is_unreached(heap, reached, holder) {
            let fields = heap.slots[i].fields;
            offer(holders, rank, fields[0], holder);
            offer(holders, rank, fields[1], holder);
        }
    }
}

/// Offers a holder to the slot that a field's word names, if it names one.
fn offer(holders: &mut [Option<SlotId>], rank: &[u64], word: u64, holder: SlotId)
    requires word { word ≤ length holders.old }
    requires holder { holder.0 < length rank.now }
    requires within { (s : SlotId) → IfSome (holder_at holders.old s) (λ t. t.0 < length rank.now) }
    ensures offered { Offers rank.now word holder holders.old holders.new }
    ensures within { (s : SlotId) → IfSome (holder_at holders.new s) (λ t. t.0 < length rank.now) }
{
    if word != 0 {
        let held = (word - 1) as usize;
        let best = holders[held];
        holders[held] = Some(lower(rank, best, holder));
    }
}
