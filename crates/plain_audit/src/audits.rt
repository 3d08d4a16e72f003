//! The audit of a plain heap, by its image.
ghost use Rattle.std.specs.Prelude.{◌≡◌, IfOk, length};
ghost use Rattle.heap_audit.specs.deleter.Weighing.{Weighs};
ghost use Rattle.cdrc_plain.specs.plain_store.Settling.{IsSettled};
ghost use Rattle.plain_audit.specs.Audits.{IsAudit};

use cdrc_plain::{OutOfMemory, PayloadKind, PlainHeap};
use heap_audit::{Audit, Deleter, audit};
use std::alloc::Global;

/// The audit of a heap that has settled. `rank` has one number for each slot, and says only which cycle is found and
/// where its walk begins. Where all ranks are different, one walk alone is the one that is found; of two slots of equal
/// rank either may count as the least.
///
/// It takes memory for the heap's image and for a few numbers a slot. It is linear in slots, cells and deferred
/// entries, with one call of `weigh` for each Live slot. `OutOfMemory` comes only of an allocation failure.
pub fn audit_heap<W: PayloadKind, F: Fn(&[u64; 16]) -> u64>(
    alloc: Global,
    heap: &PlainHeap<W>,
    weigh: &Deleter<W, F>,
    rank: &[u64],
) -> Result<Audit, OutOfMemory>
    requires settled { IsSettled heap.now }
    requires weighs { Weighs W.fits W.weight F.Fn weigh.now }
    requires ranked { length rank.now ≡ length heap.now.slots }
    ensures { IfOk result (IsAudit W.weight rank.now heap.now) }
{
    let image = heap.image(alloc)?;
    audit(alloc, &image, weigh, rank)
}
