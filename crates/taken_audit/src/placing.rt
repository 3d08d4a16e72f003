//! Words that name slots by their places in a list.
ghost use Rattle.std.specs.Prelude.{ℕ, ◌≡◌, ◌≤◌, length, map};
ghost use Rattle.plain_audit.specs.plain_state.Limits.{most_slots};
ghost use Rattle.taken_audit.specs.Placed.{IsPlaced, Rises, placed, placed_entry, placed_image};

use deleter::{Heap, Kind, SlotId, SlotImage};

/// The word that names a slot by its place among those that are taken, where `word` names it by its number; 0 where
/// that names none.
fn placed(taken: &[SlotId], word: u64) -> u64
    requires rises { (b : ℕ) × Rises 0 taken.now b }
    ensures { result ≡ placed taken.now word }
{
    taken.partition_point(|slot| u64::from(slot.0) < word) as u64
}

/// The same of each word of a list.
fn place_words(taken: &[SlotId], words: &mut [u64])
    requires rises { (b : ℕ) × Rises 0 taken.now b }
    ensures { words.new ≡ map (placed taken.now) words.old }
{
    for at in 0..words.len() {
        words[at] = placed(taken, words[at]);
    }
}

/// The same of the fields of a slot.
fn place_image(taken: &[SlotId], image: SlotImage) -> SlotImage
    requires rises { (b : ℕ) × Rises 0 taken.now b }
    ensures { result ≡ placed_image taken.now image }
{
    SlotImage {
        fields: [
            placed(taken, image.fields[0]),
            placed(taken, image.fields[1]),
        ],
        weak_field: placed(taken, image.weak_field),
        ..image
    }
}

fn place_images(taken: &[SlotId], images: &mut [SlotImage])
    requires rises { (b : ℕ) × Rises 0 taken.now b }
    ensures { images.new ≡ map (placed_image taken.now) images.old }
{
    for at in 0..images.len() {
        images[at] = place_image(taken, images[at]);
    }
}

/// The same of a deferred entry.
fn place_entry(taken: &[SlotId], entry: (Kind, SlotId)) -> (Kind, SlotId)
    requires rises { (b : ℕ) × Rises 0 taken.now b }
    requires few { length taken.now ≤ most_slots }
    ensures { result ≡ placed_entry taken.now entry }
{
    let place = placed(taken, u64::from(entry.1.0) + 1).saturating_sub(1);
    (entry.0, SlotId(place as u32))
}

fn place_entries(taken: &[SlotId], entries: &mut [(Kind, SlotId)])
    requires rises { (b : ℕ) × Rises 0 taken.now b }
    requires few { length taken.now ≤ most_slots }
    ensures { entries.new ≡ map (placed_entry taken.now) entries.old }
{
    for at in 0..entries.len() {
        entries[at] = place_entry(taken, entries[at]);
    }
}

/// All words of the heap name slots by their places in the list.
pub(crate) fn place_heap(taken: &[SlotId], heap: &mut Heap)
    requires rises { (b : ℕ) × Rises 0 taken.now b }
    requires few { length taken.now ≤ most_slots }
    ensures { IsPlaced taken.now heap.old heap.new }
{
    place_images(taken, &mut heap.slots);
    place_words(taken, &mut heap.cells);
    place_words(taken, &mut heap.weak_cells);
    place_entries(taken, &mut heap.deferred);
}
