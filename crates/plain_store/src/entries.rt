//! Lists of entries: how often one stands in a list, and how one joins or leaves it.
ghost use Rattle.std.specs.Prelude.{◌≡◌, ◌+◌, ◌<◌, ◌≤◌, IfSome, IsSome, length, slice_index_or, take};
ghost use Rattle.std.specs.VecDeque.{deque_capacity};
ghost use Rattle.plain_state.specs.Lists.{is_entry, entry_times, Loses};
ghost use Rattle.plain_state.specs.Steps.{joined};

use plain_state::{Kind, SlotId};
use std::collections::VecDeque;

/// Whether an entry is of this kind and slot.
pub fn is_of(entry: &(Kind, SlotId), kind: Kind, slot: SlotId) -> bool
    ensures { result ≡ is_entry kind slot entry.now }
{
    match (kind, entry.0) {
        (Kind::Strong, Kind::Strong)
        | (Kind::Weak, Kind::Weak)
        | (Kind::Disposal, Kind::Disposal) => entry.1.0 == slot.0,
        (Kind::Strong, Kind::Weak | Kind::Disposal)
        | (Kind::Weak, Kind::Strong | Kind::Disposal)
        | (Kind::Disposal, Kind::Strong | Kind::Weak) => false,
    }
}

/// How often the entry stands in the list.
pub(crate) fn entry_count(list: &[(Kind, SlotId)], kind: Kind, slot: SlotId) -> usize
    ensures { result ≡ entry_times kind slot list.now }
{
    let mut count = 0;
    for entry in list {
        if is_of(entry, kind, slot) {
            count += 1;
        }
    }
    count
}

/// How often the entry stands among the first `before` ones.
pub(crate) fn count_before(
    list: &VecDeque<(Kind, SlotId)>,
    before: usize,
    kind: Kind,
    slot: SlotId,
) -> usize
    requires { before ≤ length list.now.items }
    ensures { result ≡ entry_times kind slot (take before list.now.items) }
{
    let mut count = 0;
    for i in 0..before {
        if is_of(&list[i], kind, slot) {
            count += 1;
        }
    }
    count
}

/// Where the entry stands first in the list.
fn index_of_entry(list: &[(Kind, SlotId)], kind: Kind, slot: SlotId) -> Option<usize>
    requires { 0 < entry_times kind slot list.now }
    ensures there { IsSome result }
    ensures found { IfSome result (λ i. (i < length list.now)
        × (slice_index_or list.now i (kind, slot) ≡ (kind, slot))) }
{
    for (i, entry) in list.iter().enumerate() {
        if is_of(entry, kind, slot) {
            return Some(i);
        }
    }
    None
}

/// Takes one such entry out of the list.
pub(crate) fn take_entry(list: &mut Vec<(Kind, SlotId)>, kind: Kind, slot: SlotId)
    requires { 0 < entry_times kind slot list.old.items }
    ensures { Loses list.old.items (kind, slot) list.new.items }
{
    if let Some(at) = index_of_entry(list, kind, slot) {
        list.remove(at);
    }
}

/// What a place held joins the list, which has room for it.
pub(crate) fn defer(list: &mut VecDeque<(Kind, SlotId)>, kind: Kind, held: Option<SlotId>)
    requires { length list.old.items < deque_capacity list.old }
    ensures items { list.new.items ≡ joined kind held list.old.items }
    ensures capacity { deque_capacity list.new ≡ deque_capacity list.old }
    ensures len { length list.new.items ≤ length list.old.items + 1 }
{
    if let Some(slot) = held {
        list.push_back_reserved((kind, slot));
    }
}
