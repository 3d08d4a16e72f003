//! Slots that are marked, each once, in the order in which they were.
ghost use Rattle.std.specs.Prelude.{◌≡◌, ◌<◌, [], length, replicate, false, IfOk, OnOk};
ghost use Rattle.heap_audit.specs.Marking.{Adds};

use deleter::SlotId;
use out_of_memory::OutOfMemory;
use std::alloc::Global;

/// Which slots are marked, and these slots in the order in which they were.
#[derive(Drop)]
pub struct Marks {
    pub marked: Vec<bool>,
    pub slots: Vec<SlotId>,
}

impl Marks {
    /// No slot of `many` is marked.
    pub fn new(alloc: Global, many: usize) -> Result<Marks, OutOfMemory>
        ensures marked { IfOk result (λ marks. marks.marked.items ≡ replicate many false) }
        ensures slots { IfOk result (λ marks. marks.slots.items ≡ []) }
    {
        let marked = vec![in alloc; false; many]?;
        Ok(Marks {
            marked,
            slots: Vec::with_capacity(alloc, many)?,
        })
    }

    /// Marks a slot, unless it is marked.
    pub fn mark(&mut self, slot: SlotId) -> Result<(), OutOfMemory>
        requires { slot.0 < length self.old.marked.items }
        ensures { OnOk result (Adds
            self.old.marked.items self.old.slots.items slot
            self.new.marked.items self.new.slots.items) }
    {
        if self.marked[slot.0 as usize] {
            return Ok(());
        }
        self.slots.push(slot)?;
        self.marked[slot.0 as usize] = true;
        Ok(())
    }
}
