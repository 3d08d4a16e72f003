//! A desk is opened.
ghost use Rattle.std.specs.Prelude.{◌≡◌, ◌≤◌, [], IfOk};
ghost use Rattle.script_desk.specs.plain_state.Limits.{most_cells, most_slots, most_weak_cells};
ghost use Rattle.script_desk.specs.plain_state.declared.slot.SlotId.{SlotId};
ghost use Rattle.script_desk.specs.plain_state.State.{empty};
ghost use Rattle.script_desk.specs.plain_store.Settling.{IsSettled};
ghost use Rattle.script_desk.specs.Desks.{maker_of, nobody};
ghost use Rattle.lone_heap.specs.Lone.{IsForOne};
ghost use Rattle.domain_desk.specs.Desks.{IsKept, core_of, desk_of, plain_of};

use crate::desk::DomainDesk;
use lone_heap::open;
use script_desk::{NameTable, OutOfMemory, ScriptKind, no_makers};
use std::alloc::Global;

impl DomainDesk {
    /// A desk with an empty heap and no names: 1 to 4,194,304 slots, at most 65,536 strong cells and 4,194,304 weak
    /// ones. Linear in them.
    pub fn open(
        alloc: Global,
        slots: u32,
        cells: u32,
        weak_cells: u32,
    ) -> Result<DomainDesk, OutOfMemory>
        requires slots { (1 ≤ slots) × (slots ≤ most_slots) }
        requires cells { cells ≤ most_cells }
        requires weak_cells { weak_cells ≤ most_weak_cells }
        ensures one { IfOk result (λ desk. IsForOne slots cells weak_cells desk.domain) }
        ensures plain { IfOk result (λ desk. plain_of desk ≡ empty 1 slots cells weak_cells) }
        ensures settled { IfOk result (λ desk. IsSettled (plain_of desk)) }
        ensures names { IfOk result (λ desk. desk.names ≡ []) }
        ensures makes { IfOk result (λ desk. desk.makes ≡ 0) }
        ensures makers { IfOk result (λ desk. (s : SlotId) → maker_of (desk_of desk) s ≡ nobody) }
        ensures trail { IfOk result (λ desk. (core_of desk).trail ≡ []) }
        ensures kept { IfOk result (λ desk. IsKept desk) }
    {
        let (domain, seat, words) = open::<ScriptKind>(alloc, slots, cells, weak_cells)?;
        let makers = no_makers(alloc, slots)?;
        Ok(DomainDesk {
            alloc,
            domain,
            seat,
            words,
            names: NameTable::new(alloc),
            makers,
            makes: 0,
            cells,
            weak_cells,
        })
    }
}
