//! What the Live slots add up to, in one pass.
ghost use Rattle.std.specs.Prelude.{◌≡◌, ◌<◌, ◌≤◌, ◌^◌, length};
ghost use Rattle.deleter.specs.plain_state.Limits.{most_slots};
ghost use Rattle.deleter.specs.Weighing.{Weighs};
ghost use Rattle.heap_audit.specs.Heaps.{slot, HasFittingPayloads, live_slots, live_bytes};
ghost use Rattle.heap_audit.specs.Reached.{IsUnreached, HowMany};
ghost use Rattle.heap_audit.specs.Tables.{AreReached, IsLeastIfAny};

use crate::ranks::lower;
use crate::search::is_unreached;
use crate::word::is_live;
use deleter::{Deleter, Heap, PayloadKind, SlotId};

/// What the Live slots of a heap add up to.
#[derive(Clone, Copy, Debug, Drop)]
pub struct Sums {
    /// How many slots are Live.
    pub live: u64,
    /// What the Live slots weigh together.
    pub bytes: u64,
    /// How many of them are unreached.
    pub unreached: u64,
    /// Which of the unreached ones has the least rank.
    pub least: Option<SlotId>,
}

/// Adds up the Live slots. One look at each slot, and one call of `weigh` for each Live one.
pub fn sum_up<W: PayloadKind, F: Fn(&[u64; 16]) -> u64>(
    heap: &Heap,
    weigh: &Deleter<W, F>,
    reached: &[bool],
    rank: &[u64],
) -> Sums
    requires few { length heap.now.slots.items ≤ most_slots }
    requires fits { HasFittingPayloads W.fits heap.now }
    requires weighs { Weighs W.fits W.weight F.Fn weigh.now }
    requires table { AreReached heap.now reached.now }
    requires ranked { length rank.now ≡ length heap.now.slots.items }
    ensures live { result.live ≡ live_slots heap.now }
    ensures bytes { result.bytes ≡ live_bytes W.weight heap.now }
    ensures unreached { HowMany (λ n. IsUnreached heap.now (slot n))
        (length heap.now.slots.items) result.unreached }
    ensures least { IsLeastIfAny rank.now (IsUnreached heap.now) result.least }
{
    let mut live = 0;
    let mut bytes = 0;
    let mut unreached = 0;
    let mut least = None;
    for i in 0..heap.slots.len() {
        let image = &heap.slots[i];
        if is_live(image.strong) {
            live += 1;
            bytes += weigh.call(&image.payload);
        }
        let slot = SlotId(i as u32);
        if is_unreached(heap, reached, slot) {
            unreached += 1;
            least = Some(lower(rank, least, slot));
        }
    }
    Sums {
        live,
        bytes,
        unreached,
        least,
    }
}
