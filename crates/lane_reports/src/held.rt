//! Of which slots some references are.
ghost use Rattle.std.specs.Prelude.{◌≡◌, ◌==◌, true, cond, IfOk, OnOk};
ghost use Rattle.law_lesson.specs.plain_state.declared.slot.SlotId.{SlotId};
ghost use Rattle.lane_reports.specs.Holders.{AreSlotsOf, has};

use domain_audit::{SlotId, Strong};
use std::alloc::Global;
use tally_sums::OutOfMemory;

/// A mark for each slot number up to the greatest of these references': whether one of them is to that slot. A step for
/// each reference and each number.
pub(crate) fn mark_slots(alloc: Global, kept: &[Strong]) -> Result<Vec<bool>, OutOfMemory>
    ensures { IfOk result (λ held. AreSlotsOf kept.now (has held.items)) }
{
    let mut held = Vec::new(alloc);
    for handle in kept {
        mark(&mut held, handle.slot())?;
    }
    Ok(held)
}

/// Marks a slot. The list grows to its number.
fn mark(held: &mut Vec<bool>, slot: SlotId) -> Result<(), OutOfMemory>
    ensures { OnOk result ((s : SlotId) → has held.new.items s
        ≡ cond (slot.0 == s.0) true (has held.old.items s)) }
{
    let at = slot.0 as usize;
    if at >= held.len() {
        held.resize(at + 1, false)?;
    }
    held[at] = true;
    Ok(())
}

/// Whether a slot is marked.
pub(crate) fn is_held(held: &[bool], slot: SlotId) -> bool
    ensures { result ≡ has held.now slot }
{
    held.get(slot.0 as usize).copied().unwrap_or(false)
}
