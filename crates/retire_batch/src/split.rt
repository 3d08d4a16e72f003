//! The split of the retired entries, in place.
ghost use Rattle.std.specs.Prelude.{◌≡◌, ◌≤◌, ◌+◌, nat_lt, [], vec_len, vec_capacity};
ghost use Rattle.std.specs.VecDeque.{deque_len, deque_capacity};
ghost use Rattle.plain_state.specs.Lists.{is_entry, entry_times};
ghost use Rattle.plain_state.specs.Ejection.{kept, ejected};

use plain_state::{Announced, Kind, SlotId};
use std::collections::VecDeque;

/// Whether the entry is of this kind and slot.
fn is_of(entry: &(Kind, SlotId), kind: Kind, slot: SlotId) -> bool
    ensures { result ≡ is_entry kind slot entry.now }
{
    entry.0 == kind && entry.1 == slot
}

/// How often an entry stands in a list.
#[tactic(auto, unfolding(plain_state::specs::Lists::entry_times))]
fn count(entries: &[(Kind, SlotId)], kind: Kind, slot: SlotId) -> usize
    ensures { result ≡ entry_times kind slot entries.now }
{
    entries
        .iter()
        .filter(|entry| is_of(entry, kind, slot))
        .count()
}

/// Whether an entry stays after those that were kept before it.
fn stays<S: Announced>(kept: &[(Kind, SlotId)], kind: Kind, slot: SlotId, seen: &S) -> bool
    ensures { result ≡ nat_lt (entry_times kind slot kept.now) (S.announced seen.now kind slot) }
{
    let announced = seen.times(kind, slot);
    announced != 0 && count(kept, kind, slot) < announced as usize
}

/// Keeps in `retired` what stays, and moves the rest to `owed`.
pub fn split_entries<S: Announced>(
    retired: &mut Vec<(Kind, SlotId)>,
    owed: &mut VecDeque<(Kind, SlotId)>,
    seen: &S,
)
    requires nothing_owed { owed.old.items ≡ [] }
    requires room { vec_len retired.old ≤ deque_capacity owed.old }
    ensures kept { retired.new.items ≡ kept retired.old.items (S.announced seen.now) }
    ensures ejected { owed.new.items ≡ ejected retired.old.items (S.announced seen.now) }
    ensures lengths { vec_len retired.new + deque_len owed.new ≡ vec_len retired.old }
    ensures retired_capacity { vec_capacity retired.new ≡ vec_capacity retired.old }
    ensures owed_capacity { deque_capacity owed.new ≡ deque_capacity owed.old }
{
    let mut staying = 0;
    for place in 0..retired.len() {
        let (kind, slot) = retired[place];
        if stays(&retired[..staying], kind, slot, seen) {
            retired[staying] = (kind, slot);
            staying += 1;
        } else {
            owed.push_back_reserved((kind, slot));
        }
    }
    retired.truncate(staying);
}
