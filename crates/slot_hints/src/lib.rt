//! Where a seat looks first for a free slot: at those that it gave back itself, the last one first, and then where its
//! last search ended.
//!
//! These are hints. Another seat may have claimed a slot meanwhile, so whether it is free is told by a claim alone, and
//! no clause says which slot a hint names, only that it is one of so many.
//!
//! ```text
//! let mut hints = Hints::new(alloc, 0)?;
//! hints.remember(SlotId(7));
//! hints.take_freed(100);          // Some(SlotId(7))
//! hints.search_start(100);        // SlotId(0)
//! ```
#![tactic(auto)]

ghost use Rattle.std.specs.Prelude.{◌<◌, IfSome};

use out_of_memory::OutOfMemory;
use plain_state::SlotId;
use std::alloc::Global;

/// How many of the slots that it gave back a seat remembers.
const MOST_FREED: usize = 64;

/// What a seat remembers of free slots: at most 64 that it gave back, and where its last search ended.
#[derive(Drop)]
pub struct Hints {
    freed: Vec<SlotId>,
    searched: u32,
}

impl Hints {
    /// Nothing was given back, and the first search begins at this slot.
    pub fn new(alloc: Global, start: u32) -> Result<Hints, OutOfMemory> {
        let freed = Vec::with_capacity(alloc, MOST_FREED)?;
        Ok(Hints {
            freed,
            searched: start,
        })
    }

    /// Remembers a slot that was given back, if there is room.
    pub fn remember(&mut self, slot: SlotId) {
        if self.freed.len() < self.freed.capacity() {
            self.freed.push_reserved(slot);
        }
    }

    /// The slot that was given back last, if it is one of so many; it is forgotten then.
    pub fn take_freed(&mut self, slots: u32) -> Option<SlotId>
        ensures { IfSome result (λ slot. slot.0 < slots) }
    {
        self.freed.pop().filter(|slot| slot.0 < slots)
    }

    /// The slot, of so many, at which the next search begins.
    pub fn search_start(&self, slots: u32) -> SlotId
        requires { 0 < slots }
        ensures { result.0 < slots }
    {
        SlotId(self.searched % slots)
    }

    /// Remembers where a search ended.
    pub fn end_search(&mut self, at: SlotId) {
        self.searched = at.0;
    }
}
