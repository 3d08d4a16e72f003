//! The sums that a store keeps beside its slots.
ghost use Rattle.std.specs.Prelude.{◌≡◌, ◌+◌, ◌-◌, ◌<◌, ◌^◌, length, slice_index, slice_set};

use plain_state::SlotId;

/// One reference to the slot more.
pub(crate) fn count_more(sums: &mut Vec<u64>, slot: SlotId)
    requires there { slot.0 < length sums.old.items }
    requires fits { slice_index sums.old.items slot.0 + 1 < 2 ^ 64 }
    ensures { sums.new.items
        ≡ slice_set sums.old.items slot.0 (slice_index sums.old.items slot.0 + 1) }
{
    sums[slot.0 as usize] += 1;
}

/// One reference to the slot fewer.
pub(crate) fn count_less(sums: &mut Vec<u64>, slot: SlotId)
    requires there { slot.0 < length sums.old.items }
    requires some { 0 < slice_index sums.old.items slot.0 }
    ensures { sums.new.items
        ≡ slice_set sums.old.items slot.0 (slice_index sums.old.items slot.0 - 1) }
{
    sums[slot.0 as usize] -= 1;
}

/// The references to the slot.
pub(crate) fn count_of(sums: &Vec<u64>, slot: SlotId) -> u64
    requires { slot.0 < length sums.now.items }
    ensures { result ≡ slice_index sums.now.items slot.0 }
{
    sums[slot.0 as usize]
}
