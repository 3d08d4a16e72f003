//! The audit itself.
ghost use Rattle.std.specs.Prelude.{◌≡◌, ◌<◌, ◌≤◌, ◌^◌, [], length, IfOk};
ghost use Rattle.deleter.specs.plain_state.Limits.{most_slots};
ghost use Rattle.deleter.specs.Weighing.{Weighs};
ghost use Rattle.heap_audit.specs.Heaps.{slot, IsLawful, IsInRange, HasFittingPayloads, live_slots, live_bytes};
ghost use Rattle.heap_audit.specs.Reached.{IsUnreached, HowMany};
ghost use Rattle.heap_audit.specs.Walks.{IsFound, IsWalk};

use crate::finding::Audit;
use crate::reach::reached_slots;
use crate::search::find_walk;
use crate::summing::sum_up;
use deleter::{Deleter, Heap, PayloadKind};
use out_of_memory::OutOfMemory;
use std::alloc::Global;

/// The audit of a lawful heap of at most 2^22 slots, all of whose names are in range. `rank` has one number for each
/// slot, and says only which cycle is found and where its walk begins. Where all ranks are different, one walk alone is
/// the one that is found; of two slots of equal rank either may count as the least.
///
/// It takes memory for one number and one mark for each slot, and where slots are unreached for a table of slots. It
/// makes four passes over the slots at most, one call of `weigh` for each Live slot, and one step for each slot that is
/// marked or searched. It uses no stack that grows with the heap. `OutOfMemory` comes only of an allocation failure.
pub fn audit<W: PayloadKind, F: Fn(&[u64; 16]) -> u64>(
    alloc: Global,
    heap: &Heap,
    weigh: &Deleter<W, F>,
    rank: &[u64],
) -> Result<Audit, OutOfMemory>
    requires few { length heap.now.slots.items ≤ most_slots }
    requires range { IsInRange heap.now }
    requires lawful { IsLawful heap.now }
    requires fits { HasFittingPayloads W.fits heap.now }
    requires weighs { Weighs W.fits W.weight F.Fn weigh.now }
    requires ranked { length rank.now ≡ length heap.now.slots.items }
    ensures live { IfOk result (λ found. found.live ≡ live_slots heap.now) }
    ensures deferred { IfOk result (λ found. found.deferred ≡ length heap.now.deferred.items) }
    ensures bytes { IfOk result (λ found. found.bytes ≡ live_bytes W.weight heap.now) }
    // Just so many slots are unreached.
    ensures cyclic { IfOk result (λ found.
        HowMany (λ n. IsUnreached heap.now (slot n)) (length heap.now.slots.items) found.cyclic) }
    ensures none { IfOk result (λ found. found.cyclic ≡ 0 → found.walk.items ≡ []) }
    // Where some are, the walk is the one that the search from the least rank finds.
    ensures walk { IfOk result (λ found.
        0 < found.cyclic → IsFound heap.now rank.now found.walk.items) }
    // So it goes round a cycle of strong fields.
    ensures round { IfOk result (λ found. 0 < found.cyclic → IsWalk heap.now found.walk.items) }
{
    let reached = reached_slots(alloc, heap)?;
    let sums = sum_up(heap, weigh, &reached, rank);
    let walk = match sums.least {
        None => Vec::new(alloc),
        Some(start) => find_walk(alloc, heap, &reached, rank, start)?,
    };
    Ok(Audit {
        live: sums.live,
        deferred: heap.deferred.len() as u64,
        cyclic: sums.unreached,
        bytes: sums.bytes,
        walk,
    })
}
