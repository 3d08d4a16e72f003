//! The audit of the slots that are taken.
ghost use Rattle.std.specs.Prelude.{ℕ, ◌≡◌, ◌≤◌, List, IfOk, length};
ghost use Rattle.plain_audit.specs.plain_state.Limits.{most_slots};
ghost use Rattle.plain_audit.specs.plain_state.State.{Plain};
ghost use Rattle.plain_audit.specs.deleter.Weighing.{Weighs};
ghost use Rattle.plain_audit.specs.Audits.{IsAudit};
ghost use Rattle.taken_audit.specs.Parts.{AreRanks, HasTaken, named_slots};
ghost use Rattle.taken_audit.specs.Placed.{at};

use crate::placing::place_heap;
use deleter::{Deleter, Heap, PayloadKind, SlotId};
use out_of_memory::OutOfMemory;
use plain_audit::{Audit, audit};
use std::alloc::Global;

/// The slot in the place that another one names.
fn slot_at(taken: &[SlotId], place: SlotId) -> SlotId
    ensures { result ≡ at taken.now place.0 }
{
    taken.get(place.0 as usize).copied().unwrap_or(SlotId(0))
}

/// The slots in the places that a walk names.
fn name_slots(taken: &[SlotId], walk: &mut [SlotId])
    ensures { walk.new ≡ named_slots taken.now walk.old }
{
    for at in 0..walk.len() {
        walk[at] = slot_at(taken, walk[at]);
    }
}

/// The audit of a settled heap, by the words of its slots that aren't free, which are read over. `rank` has one number
/// for each of these.
pub fn audit_taken<W: PayloadKind, F: Fn(&[u64; 16]) -> u64>(
    alloc: Global,
    taken: &[SlotId],
    heap: &mut Heap,
    weigh: &Deleter<W, F>,
    rank: &[u64],
) -> Result<Audit, OutOfMemory>
    requires taken { (p : Plain) × HasTaken W.fits p taken.now heap.old }
    requires weighs { Weighs W.fits W.weight F.Fn weigh.now }
    requires ranked { length rank.now ≡ length taken.now }
    ensures { IfOk result (λ found. (p : Plain) → HasTaken W.fits p taken.now heap.old
        → (ranks : List ℕ) → AreRanks taken.now rank.now ranks → IsAudit W.weight ranks p found) }
{
    place_heap(taken, heap);
    let mut found = audit(alloc, heap, weigh, rank)?;
    name_slots(taken, &mut found.walk);
    Ok(found)
}
