//! The references that a lane keeps.
ghost use Rattle.std.specs.Prelude.{◌≡◌, ◌==◌, ◌<◌, [], IfErr, IfOk, OnErr, OnOk, cond, false, true, vec_capacity, vec_len};
ghost use Rattle.plain_state.specs.declared.slot.SlotId.{SlotId};
ghost use Rattle.lane_work.specs.Keeping.{Admits, IsSameKeeper, has};

use counted_handles::Strong;
use out_of_memory::{Back, OutOfMemory};
use std::alloc::Global;
use std::collections::HashSet;

/// The references that a lane keeps, and the slots of those that it keeps for the present file.
#[derive(Drop)]
pub struct Keeper {
    pub kept: Vec<Strong>,
    in_file: HashSet<u32>,
}

impl Keeper {
    /// Nothing is kept.
    pub fn new(alloc: Global) -> Keeper
        ensures kept { result.kept.items ≡ [] }
        ensures none { (s : SlotId) → has result s ≡ false }
    {
        Keeper {
            kept: Vec::new(alloc),
            in_file: HashSet::new(alloc),
        }
    }

    /// What is kept was kept for earlier files.
    pub fn begin_file(&mut self)
        ensures kept { self.new.kept.items ≡ self.old.kept.items }
        ensures none { (s : SlotId) → has self.new s ≡ false }
    {
        self.in_file.clear();
    }

    /// Keeps a reference where none to its slot is kept for the present file; else it comes back. With no memory it
    /// comes back too, and nothing has changed.
    pub fn admit(&mut self, handle: Strong) -> Result<Option<Strong>, Back<Strong>>
        ensures admits { IfOk result (λ back. Admits handle back self.old self.new) }
        ensures back { IfErr result (λ refused. refused.back ≡ handle) }
        ensures refused { OnErr result (IsSameKeeper self.old self.new) }
    {
        let slot = handle.slot().0;
        if self.in_file.contains(&slot) {
            return Ok(Some(handle));
        }
        if let Err(_refused) = self.mark(slot) {
            return Err(Back { back: handle });
        }
        self.kept.push_reserved(handle);
        Ok(None)
    }

    /// Notes a slot for the present file, and makes room for one reference more.
    fn mark(&mut self, slot: u32) -> Result<(), OutOfMemory>
        ensures kept { self.new.kept.items ≡ self.old.kept.items }
        ensures room { OnOk result (vec_len self.new.kept < vec_capacity self.new.kept) }
        ensures marks { OnOk result ((s : SlotId)
            → has self.new s ≡ cond (slot == s.0) true (has self.old s)) }
        ensures refused { OnErr result (IsSameKeeper self.old self.new) }
    {
        self.kept.reserve(1)?;
        self.in_file.insert(slot)?;
        Ok(())
    }
}
