//! A desk is opened, and closed.
ghost use Rattle.std.specs.Prelude.{◌≡◌, ◌≤◌, [], All, IfOk, length};
ghost use Rattle.plain_audit.specs.plain_state.Limits.{most_cells, most_slots, most_weak_cells};
ghost use Rattle.plain_audit.specs.plain_state.declared.slot.SlotId.{SlotId};
ghost use Rattle.plain_audit.specs.plain_state.State.{empty};
ghost use Rattle.plain_settling.specs.plain_store.Settling.{IsSettled};
ghost use Rattle.script_desk.specs.Desks.{nobody, maker_of, without_handles};

use crate::binding::give_up;
use crate::desk::Desk;
use crate::kind::ScriptKind;
use crate::maker::Make;
use crate::names::NameTable;
use plain_audit::PlainHeap;
use script_lines::OutOfMemory;
use std::alloc::Global;

/// A maker for each slot, none of which was made.
pub fn no_makers(alloc: Global, slots: u32) -> Result<Vec<Make>, OutOfMemory>
    ensures size { IfOk result (λ makers. length makers.items ≡ slots) }
    ensures each { IfOk result (λ makers. All (λ maker. maker ≡ nobody) makers.items) }
{
    let mut makers = Vec::with_capacity(alloc, slots as usize)?;
    for _ in 0..slots {
        makers.push_reserved(Make {
            number: 0,
            name: String::new(alloc),
        });
    }
    Ok(makers)
}

impl Desk {
    /// A desk with an empty heap and no names: 1 to 4,194,304 slots, at most 65,536 strong cells and 4,194,304 weak
    /// ones. Linear in them.
    pub fn open(alloc: Global, slots: u32, cells: u32, weak_cells: u32) -> Result<Desk, OutOfMemory>
        requires slots { (1 ≤ slots) × (slots ≤ most_slots) }
        requires cells { cells ≤ most_cells }
        requires weak_cells { weak_cells ≤ most_weak_cells }
        ensures plain { IfOk result (λ desk. desk.plain ≡ empty 1 slots cells weak_cells) }
        ensures settled { IfOk result (λ desk. IsSettled desk.plain) }
        ensures names { IfOk result (λ desk. desk.names ≡ []) }
        ensures makes { IfOk result (λ desk. desk.makes ≡ 0) }
        ensures makers { IfOk result (λ desk. (s : SlotId) → maker_of desk s ≡ nobody) }
    {
        let heap = PlainHeap::<ScriptKind>::new(alloc, slots, cells, weak_cells)?;
        let makers = no_makers(alloc, slots)?;
        Ok(Desk {
            alloc,
            heap,
            names: NameTable::new(alloc),
            makers,
            makes: 0,
            cells,
            weak_cells,
        })
    }

    /// Gives up every handle to which a name is bound, and answers the heap: its seat has nothing left, and nothing
    /// else of it has changed. It hasn't settled after that.
    pub fn close(self) -> PlainHeap<ScriptKind>
        ensures { result ≡ without_handles self.plain }
    {
        let Desk {
            alloc: _,
            mut heap,
            mut names,
            makers: _,
            makes: _,
            cells: _,
            weak_cells: _,
        } = self;
        while let Some(handle) = names.pop() {
            give_up(&mut heap, handle);
        }
        heap
    }
}
