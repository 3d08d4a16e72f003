//! What a plain heap keeps: the lists of its one seat, its places, its slots, and beside each slot the sums of the
//! references to it. The sums are kept up step by step, so that no call adds up a list.
ghost use Rattle.std.specs.Prelude.{◌≡◌, ◌+◌, ◌<◌, ◌≤◌, ◌^◌, IfOk, replicate};
ghost use Rattle.plain_state.specs.Limits.{most_slots};
ghost use Rattle.plain_state.specs.State.{empty};
ghost use Rattle.plain_store.specs.Stores.{plain_of, Kept};

use out_of_memory::OutOfMemory;
use plain_state::{Kind, PlainSlot, SlotId, Stage};
use std::alloc::Global;
use std::collections::VecDeque;

/// A plain heap without its rule.
#[derive(Drop)]
pub struct Store {
    pub owned: Vec<SlotId>,
    pub weaks: Vec<SlotId>,
    pub snapshots: Vec<(Kind, SlotId)>,
    /// What waits to be given up. Settling takes it out from near the front, where what is under snapshots stays.
    pub deferred: VecDeque<(Kind, SlotId)>,
    pub dying: Vec<SlotId>,
    pub adds: u64,
    pub cells: Vec<Option<SlotId>>,
    pub weak_cells: Vec<Option<SlotId>>,
    pub slots: Vec<PlainSlot>,
    /// The strong and the weak references to each slot.
    pub strong: Vec<u64>,
    pub weak: Vec<u64>,
    /// Where `make` begins to look for a free slot.
    pub next: usize,
}

/// A slot that was never made.
const NEW_SLOT: PlainSlot = PlainSlot {
    stage: Stage::Free,
    marked: true,
    life: 0,
    payload: [0; 16],
    first: None,
    second: None,
    weak_field: None,
};

/// A list of `count` copies.
fn copies<T: Copy>(alloc: Global, value: T, count: u32) -> Result<Vec<T>, OutOfMemory>
    ensures { IfOk result (λ v. v.items ≡ replicate count value) }
{
    let mut list = Vec::new(alloc);
    list.resize(count as usize, value)?;
    Ok(list)
}

impl Store {
    /// An empty heap of at most 4,194,304 slots.
    pub fn new(alloc: Global, slots: u32, cells: u32, weak_cells: u32) -> Result<Store, OutOfMemory>
        requires { slots ≤ most_slots }
        ensures empty { IfOk result (λ h. plain_of h ≡ empty 1 slots cells weak_cells) }
        ensures kept { IfOk result Kept }
    {
        Ok(Store {
            owned: Vec::new(alloc),
            weaks: Vec::new(alloc),
            snapshots: Vec::new(alloc),
            deferred: VecDeque::new(alloc),
            dying: Vec::new(alloc),
            adds: 0,
            cells: copies(alloc, None, cells)?,
            weak_cells: copies(alloc, None, weak_cells)?,
            slots: copies(alloc, NEW_SLOT, slots)?,
            strong: copies(alloc, 0, slots)?,
            weak: copies(alloc, 0, slots)?,
            next: 0,
        })
    }
}
