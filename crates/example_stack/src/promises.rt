//! What the law gives a user of a stack.
ghost use Rattle.std.specs.Prelude.{ℕ, ◌≡◌, List, Some};
ghost use Rattle.cdrc.specs.plain_state.State.{Plain, slot_at};
ghost use Rattle.cdrc.specs.plain_state.Lawful.{Lawful};
ghost use Rattle.cdrc.specs.plain_state.declared.slot.SlotId.{SlotId};
ghost use Rattle.example_stack.specs.Views.{View, WasPopped, WasPushed};
ghost use Rattle.example_stack.specs.Stack.{Stack, node_at};

use crate::law::StackLaw;
use cdrc::PayloadKind;

/// Each value that a seat popped was pushed, by some seat; and so was the value of each node of the stack, however deep
/// it lies. The call does nothing.
pub fn each_value_was_pushed<K: PayloadKind>(_stack: &StackLaw<K>)
    ensures popped { (p : Plain) (views : List View) → Stack _stack.now.cell K.fits p views
        → (value : List ℕ) → WasPopped views value → WasPushed views value }
    ensures held { (p : Plain) (views : List View) → Lawful p → Stack _stack.now.cell K.fits p views
        → (depth : ℕ) (s : SlotId) → node_at _stack.now.cell p depth ≡ Some s
        → WasPushed views (slot_at p s).payload }
{}
