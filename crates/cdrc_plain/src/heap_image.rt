//! A plain heap as words.
ghost use Rattle.std.specs.Prelude.{◌≡◌, IfOk};
ghost use Rattle.plain_protocol.specs.plain_state.Images.{IsImage};
ghost use Rattle.plain_store.specs.Heaps.{IsHeap};
ghost use Rattle.plain_store.specs.Stores.{plain_of, Kept};

use crate::heap::PlainHeap;
use plain_protocol::{Heap, PayloadKind};
use plain_store::{OutOfMemory, words};
use std::alloc::Global;

impl<W: PayloadKind> PlainHeap<W> {
    /// The heap as words: the strong word of a slot is its count, or the zero flag alone where the zero mark
    /// stands; the weak word is its count, or the zero flag where the slot is free. Linear in slots, cells and
    /// deferred entries.
    pub fn image(&self, alloc: Global) -> Result<Heap, OutOfMemory>
        ensures image { IfOk result (IsImage self.now) }
        ensures heap { IsHeap W.fits self.now }
    {
        Ok(Heap {
            slots: self.store.slot_images(alloc)?,
            cells: words(alloc, &self.store.cells)?,
            weak_cells: words(alloc, &self.store.weak_cells)?,
            deferred: self.store.deferred_entries(alloc)?,
        })
    }
}
