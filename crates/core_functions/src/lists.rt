//! Lists of slots and of notes.
ghost use Rattle.std.specs.Prelude.{◌≡◌, ◌↔◌, ◌<◌, ◌≤◌, ◌+◌, ◌++◌, [], ℕ, IsTrue, OnOk, OnErr, slice_index_or, vec_len, vec_capacity};
ghost use Rattle.core_events.specs.plain_state.Lists.{times, entry_times};
ghost use Rattle.core_events.specs.plain_state.Steps.{joined};
ghost use Rattle.core_events.specs.declared.view.Note.TheVariants.{Idle, Valid};
ghost use Rattle.core_events.specs.Views.{valid_of, without};

use core_events::{Kind, Note, SlotId};
use retire_batch::OutOfMemory;

/// Whether the slot stands in the list.
pub fn has_slot(list: &[SlotId], slot: SlotId) -> bool
    ensures { IsTrue result ↔ (0 < times slot list.now) }
{
    list.contains(&slot)
}

/// Takes the first entry of the slot out of the list, if it is there. The list keeps its room.
#[tactic(auto, using(crate::proofs::Slots::without_at, crate::proofs::Slots::without_none))]
pub fn take_first(list: &mut Vec<SlotId>, slot: SlotId)
    ensures taken { list.new.items ≡ without slot list.old.items }
    ensures capacity { vec_capacity list.new ≡ vec_capacity list.old }
{
    for i in 0..list.len() {
        if list[i].0 == slot.0 {
            let _ = list.remove(i);
            return;
        }
    }
}

/// Joins what a place held to the retired entries.
pub fn retire(
    retired: &mut Vec<(Kind, SlotId)>,
    kind: Kind,
    old: Option<SlotId>,
) -> Result<(), OutOfMemory>
    ensures ok { OnOk result (retired.new.items ≡ joined kind old retired.old.items) }
    ensures err { OnErr result (retired.new.items ≡ retired.old.items) }
{
    if let Some(slot) = old {
        retired.reserve(1)?;
        retired.push_reserved((kind, slot));
    }
    Ok(())
}

/// Moves all of a list behind another one, which has room for it: no memory is taken.
pub fn move_all<T>(from: &mut Vec<T>, to: &mut Vec<T>)
    requires { vec_len to.old + vec_len from.old ≤ vec_capacity to.old }
    ensures taken { to.new.items ≡ to.old.items ++ from.old.items }
    ensures given { from.new.items ≡ [] }
{
    let _ = to.append(from);
}

/// Whether a note is a valid one of this kind and slot.
fn is_snapshot(note: &Note, kind: Kind, slot: SlotId) -> bool
    ensures { IsTrue result ↔ (note.now ≡ Valid kind slot) }
{
    match note {
        Note::Valid(k, s) => *k == kind && *s == slot,
        Note::Idle | Note::Announced(_, _) => false,
    }
}

/// Whether a seat with these notes is under a snapshot of the slot, of this kind.
#[tactic(auto, using(crate::proofs::Snapshots::snapshot_search))]
pub fn has_snapshot(notes: &[Note], kind: Kind, slot: SlotId) -> bool
    ensures { IsTrue result ↔ (0 < entry_times kind slot (valid_of notes.now)) }
{
    for note in notes {
        if is_snapshot(note, kind, slot) {
            return true;
        }
    }
    false
}

/// Whether every note stands for nothing.
#[tactic(auto, using(crate::proofs::Snapshots::all_idle))]
pub fn are_idle(notes: &[Note]) -> bool
    ensures { IsTrue result ↔ ((j : ℕ) → slice_index_or notes.now j Idle ≡ Idle) }
{
    for note in notes {
        if *note != Note::Idle {
            return false;
        }
    }
    true
}
