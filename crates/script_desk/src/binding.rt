//! A handle that the heap gave gets a name, or is given up.
ghost use Rattle.std.specs.Prelude.{◌≡◌, Bool, true, IfOk, IfSome, IsSomeAnd, OnOk, OnErr, Some, None};
ghost use Rattle.std.specs.Map.{values_of};
ghost use Rattle.plain_audit.specs.plain_state.declared.slot.SlotId.{SlotId};
ghost use Rattle.plain_audit.specs.plain_state.Steps.{Does};
ghost use Rattle.plain_settling.specs.plain_store.Calls.{Gains};
ghost use Rattle.script_desk.specs.declared.handle.Handle.TheVariants.{Snapshot};
ghost use Rattle.script_desk.specs.Handles.{is_snapshot};
ghost use Rattle.script_desk.specs.Desks.{bound, Binds};
ghost use Rattle.script_desk.specs.Holding.{HasHandle, CountsMore, giving};

use crate::handle::Handle;
use crate::kind::ScriptKind;
use crate::names::NameTable;
use plain_audit::PlainHeap;
use plain_settling::Hand;
use script_lines::{Back, Name, OutOfMemory};
use std::alloc::Global;

/// Gives the handle up.
pub(crate) fn give_up(heap: &mut PlainHeap<ScriptKind>, handle: Handle)
    requires { HasHandle heap.old handle }
    ensures { Does heap.old 0 (giving handle) 0 heap.new }
{
    match handle {
        Handle::Strong(hand) => heap.drop_hand(hand),
        Handle::Weak(hand) => heap.drop_weak(hand),
        Handle::Snapshot(hand) => heap.unsnap(hand),
    }
}

/// Binds the name to a handle that the heap has just given. Where there is no memory for the name, the handle is given
/// up again.
pub(crate) fn bind(
    alloc: Global,
    heap: &mut PlainHeap<ScriptKind>,
    names: &mut NameTable,
    name: &Name,
    handle: Handle,
) -> Result<(), OutOfMemory>
    requires unbound { bound names.old name.now ≡ None }
    requires has { HasHandle heap.old handle }
    ensures heap { OnOk result (heap.new ≡ heap.old) }
    ensures binds { OnOk result (Binds names.old name.now (Some handle) names.new) }
    ensures more { OnOk result (CountsMore (values_of names.old) handle (values_of names.new)) }
    ensures err { OnErr result (names.new ≡ names.old) }
    ensures gave { OnErr result (Does heap.old 0 (giving handle) 0 heap.new) }
{
    match names.bind(alloc, name, handle) {
        Ok(()) => Ok(()),
        Err(Back { back }) => {
            give_up(heap, back);
            Err(OutOfMemory)
        }
    }
}

/// One more reference to the object of the snapshot to which the name is bound.
pub(crate) fn keep_snapshot(
    heap: &mut PlainHeap<ScriptKind>,
    names: &NameTable,
    name: &Name,
) -> Result<Hand, OutOfMemory>
    requires snapshot { IsSomeAnd (bound names.now name.now) (λ h. is_snapshot h ≡ true) }
    requires has { IfSome (bound names.now name.now) (HasHandle heap.old) }
    ensures gains { IfOk result (λ hand. (s : SlotId) × (counted : Bool)
        × (bound names.now name.now ≡ Some (Snapshot (s, counted)))
        × Gains heap.old s hand heap.new) }
    ensures err { OnErr result (heap.new ≡ heap.old) }
{
    match names.get(name) {
        Some(Handle::Snapshot(hand)) => heap.keep(hand),
        _ => unreachable!(),
    }
}
