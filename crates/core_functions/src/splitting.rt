//! What a scan keeps of the retired entries, what it ejects, and what gets ripe.
ghost use Rattle.std.specs.Prelude.{◌≡◌, ◌-◌, ◌<◌, ◌^◌, ◌+◌, ◌≤◌, ◌++◌, ◌∷◌, [], IfOk, true, length, take, vec_len, vec_capacity};
ghost use Rattle.std.specs.VecDeque.{deque_len};
ghost use Rattle.std.specs.List.{filter};
ghost use Rattle.core_events.specs.plain_state.Ejection.{kept, ejected, ripened, ripens};
ghost use Rattle.core_events.specs.announce_slots.Seen.{announced_in};
ghost use Rattle.eject_scan.specs.Seen.{announced};

use crate::lists::has_slot;
use core_events::{Announced, Kind, SlotId};
use eject_scan::Seen;
use retire_batch::{OutOfMemory, split_entries};
use std::alloc::Global;
use std::collections::VecDeque;

/// The two parts of a list of retired entries.
#[derive(Drop)]
pub struct Parts {
    pub kept: Vec<(Kind, SlotId)>,
    pub ejected: VecDeque<(Kind, SlotId)>,
}

/// What the words of a scan announce: those that it read before, and the last one.
pub fn announced_by(alloc: Global, seen: &[u64], last: u64) -> Result<Seen, OutOfMemory>
    requires { length seen.now < 2 ^ 32 - 1 }
    ensures { IfOk result (λ all. announced all.rows ≡ announced_in (seen.now ++ last ∷ [])) }
{
    let mut all = Seen::with_room(alloc, seen.len() as u32 + 1)?;
    for word in seen {
        all.note(*word);
    }
    all.note(last);
    Ok(all)
}

/// Splits the entries by what a scan has seen: of the copies of one entry as many are kept as are announced, the
/// earlier ones.
pub fn split(alloc: Global, retired: &[(Kind, SlotId)], seen: &Seen) -> Result<Parts, OutOfMemory>
    ensures kept { IfOk result (λ p. p.kept.items
        ≡ kept retired.now (announced seen.now.rows)) }
    ensures ejected { IfOk result (λ p. p.ejected.items
        ≡ ejected retired.now (announced seen.now.rows)) }
    ensures lengths { IfOk result (λ p. vec_len p.kept + deque_len p.ejected
        ≡ length retired.now) }
{
    let mut kept = Vec::new(alloc);
    kept.extend_from_slice(retired)?;
    let mut ejected = VecDeque::with_capacity(alloc, retired.len())?;
    split_entries(&mut kept, &mut ejected, seen);
    Ok(Parts { kept, ejected })
}

/// Whether a dying slot becomes ripe: it isn't yet, and nothing announces it for disposal.
fn ripens(ripe: &[SlotId], seen: &Seen, slot: SlotId) -> bool
    ensures { result ≡ ripens ripe.now (announced seen.now.rows) slot }
{
    !has_slot(ripe, slot) && seen.times(Kind::Disposal, slot) == 0
}

/// A dying slot joins those that are ripe, of which the first `were` were so before, if it becomes so.
fn ripen_one(ripe: &mut Vec<SlotId>, were: usize, seen: &Seen, slot: SlotId)
    requires were { were ≤ vec_len ripe.old }
    requires room { ripens (take were ripe.old.items) (announced seen.now.rows) slot ≡ true
        → vec_len ripe.old < vec_capacity ripe.old }
    ensures joined { ripe.new.items ≡ ripe.old.items
        ++ filter (ripens (take were ripe.old.items) (announced seen.now.rows))
        (slot ∷ []) }
    ensures capacity { vec_capacity ripe.new ≡ vec_capacity ripe.old }
{
    if ripens(&ripe[..were], seen, slot) {
        ripe.push_reserved(slot);
    }
}

/// The dying slots that become ripe join those that are, for which there is room.
pub fn ripen(ripe: &mut Vec<SlotId>, dying: &[SlotId], seen: &Seen)
    requires { length (ripened ripe.old.items dying.now (announced seen.now.rows))
        ≤ vec_capacity ripe.old }
    ensures ripened { ripe.new.items
        ≡ ripened ripe.old.items dying.now (announced seen.now.rows) }
    ensures capacity { vec_capacity ripe.new ≡ vec_capacity ripe.old }
{
    let were = ripe.len();
    for slot in dying {
        ripen_one(ripe, were, seen, *slot);
    }
}

/// Those that are ripe, and behind them each dying slot that becomes so.
#[tactic(auto, using(crate::proofs::Ripens::ripened_few))]
pub fn ripened(
    alloc: Global,
    ripe: &[SlotId],
    dying: &[SlotId],
    seen: &Seen,
) -> Result<Vec<SlotId>, OutOfMemory>
    ensures { IfOk result (λ slots. slots.items
        ≡ ripened ripe.now dying.now (announced seen.now.rows)) }
{
    let mut slots = Vec::new(alloc);
    slots.extend_from_slice(ripe)?;
    slots.reserve(dying.len())?;
    ripen(&mut slots, dying, seen);
    Ok(slots)
}
