//! The slot of lower rank.
ghost use Rattle.std.specs.Prelude.{◌≡◌, ◌<◌, length, IfSome};
ghost use Rattle.heap_audit.specs.Tables.{lower_of};

use deleter::SlotId;

/// `best`, unless `slot` is of lower rank or there is no best yet.
pub fn lower(rank: &[u64], best: Option<SlotId>, slot: SlotId) -> SlotId
    requires best { IfSome best (λ s. s.0 < length rank.now) }
    requires slot { slot.0 < length rank.now }
    ensures { result ≡ lower_of rank.now best slot }
{
    match best {
        Some(best) => {
            if rank[best.0 as usize] <= rank[slot.0 as usize] {
                best
            } else {
                slot
            }
        }
        None => slot,
    }
}
