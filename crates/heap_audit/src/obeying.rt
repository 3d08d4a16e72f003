//! Whether a heap is lawful, and each slot that it names is there.
ghost use Rattle.std.specs.Prelude.{◌≡◌, ◌+◌, ◌^◌, ◌<◌, ◌≤◌, ◌↔◌, length, count_by, sum_by, All, IsTrue, slice_index};
ghost use Rattle.deleter.specs.plain_state.Lists.{Entry, entry_times, same_kind};
ghost use Rattle.deleter.specs.plain_state.declared.slot.Kind.TheVariants.{Strong};
ghost use Rattle.heap_audit.specs.Heaps.{
  IsInRange,
  IsLawful,
  HasFieldsWithin,
  HasNullFields,
  ObeysAt,
  fields_holding,
  in_fields,
  names,
  slot,
};

use deleter::{Heap, Kind, SlotId, SlotImage, ZERO};

/// Whether a heap is lawful, and each slot that its words and its deferred entries name is there: the first two parts
/// of what an audit asks for.
///
/// It takes no memory, and so it looks for each slot at all fields, cells and deferred entries.
pub fn lawful(heap: &Heap) -> bool
    ensures { IsTrue result ↔ (IsInRange heap.now × IsLawful heap.now) }
{
    if !is_in_range(heap) {
        return false;
    }
    for index in 0..heap.slots.len() as u64 {
        if !obeys(heap, index, fields_with(&heap.slots, index)) {
            return false;
        }
    }
    true
}

/// Whether each slot that the heap names is there.
pub fn is_in_range(heap: &Heap) -> bool
    ensures { IsTrue result ↔ IsInRange heap.now }
{
    let many = heap.slots.len() as u64;
    fields_within(&heap.slots, many)
        && words_within(&heap.cells, many)
        && words_within(&heap.weak_cells, many)
        && entries_within(&heap.deferred, many)
}

fn fields_within(slots: &[SlotImage], many: u64) -> bool
    ensures { IsTrue result ↔ All (HasFieldsWithin many) slots.now }
{
    slots.iter().all(|x| x.fields[0] <= many && x.fields[1] <= many && x.weak_field <= many)
}

fn words_within(words: &[u64], many: u64) -> bool
    ensures { IsTrue result ↔ All (λ word. word ≤ many) words.now }
{
    words.iter().all(|word| *word <= many)
}

fn entries_within(entries: &[(Kind, SlotId)], many: u64) -> bool
    ensures { IsTrue result ↔ All (λ (e : Entry). e.1.0 < many) entries.now }
{
    entries.iter().all(|entry| u64::from(entry.1.0) < many)
}

/// Whether one slot obeys the law. So many strong fields hold it.
pub fn obeys(heap: &Heap, index: u64, fields: u64) -> bool
    requires slot { index < length heap.now.slots.items }
    requires fields { fields ≡ in_fields heap.now (slot index) }
    ensures { IsTrue result ↔ ObeysAt heap.now (slot index) }
{
    let image = &heap.slots[index as usize];
    let cells = cells_with(&heap.cells, index);
    let deferred = entries_with(&heap.deferred, index);
    if image.strong < ZERO {
        covers(image.strong, cells, fields, deferred)
    } else {
        are_none(cells, fields, deferred) && is_bare(image)
    }
}

/// Whether a count is at least 1, and at least all of these together.
fn covers(count: u64, cells: u64, fields: u64, deferred: u64) -> bool
    ensures { IsTrue result ↔ ((1 ≤ count) × (cells + fields + deferred ≤ count)) }
{
    0 < count && cells <= count && fields <= count - cells && deferred <= count - cells - fields
}

fn are_none(cells: u64, fields: u64, deferred: u64) -> bool
    ensures { IsTrue result ↔ (cells + fields + deferred ≡ 0) }
{
    cells == 0 && fields == 0 && deferred == 0
}

fn is_bare(image: &SlotImage) -> bool
    ensures { IsTrue result ↔ HasNullFields image.now }
{
    image.fields[0] == 0 && image.fields[1] == 0 && image.weak_field == 0
}

/// How many strong fields of all slots hold this one.
fn fields_with(slots: &[SlotImage], index: u64) -> u64
    requires index { index < 2 ^ 63 }
    requires few { length slots.now < 2 ^ 63 }
    ensures { result ≡ sum_by (fields_holding (slot index)) slots.now }
{
    first_fields_with(slots, index) + second_fields_with(slots, index)
}

fn first_fields_with(slots: &[SlotImage], index: u64) -> u64
    requires { index < 2 ^ 63 }
    ensures { result ≡ count_by (λ x. names (slot index) (slice_index x.fields 0)) slots.now }
{
    let word = index + 1;
    slots.iter().filter(|x| x.fields[0] == word).count() as u64
}

fn second_fields_with(slots: &[SlotImage], index: u64) -> u64
    requires { index < 2 ^ 63 }
    ensures { result ≡ count_by (λ x. names (slot index) (slice_index x.fields 1)) slots.now }
{
    let word = index + 1;
    slots.iter().filter(|x| x.fields[1] == word).count() as u64
}

fn cells_with(cells: &[u64], index: u64) -> u64
    requires { index < 2 ^ 63 }
    ensures { result ≡ count_by (names (slot index)) cells.now }
{
    let word = index + 1;
    cells.iter().filter(|cell| **cell == word).count() as u64
}

fn entries_with(entries: &[(Kind, SlotId)], index: u64) -> u64
    ensures { result ≡ entry_times Strong (slot index) entries.now }
{
    entries
        .iter()
        .filter(|entry| is_strong(entry.0) && u64::from(entry.1.0) == index)
        .count() as u64
}

fn is_strong(kind: Kind) -> bool
    ensures { result ≡ same_kind Strong kind }
{
    match kind {
        Kind::Strong => true,
        Kind::Weak | Kind::Disposal => false,
    }
}
