//! What the law gives a user of a setting.
ghost use Rattle.std.specs.Prelude.{ℕ, List, Contains};
ghost use Rattle.cdrc.specs.plain_state.State.{Plain, slot_at};
ghost use Rattle.cdrc.specs.plain_state.declared.slot.SlotId.{SlotId};
ghost use Rattle.example_setting.specs.Views.{View, view_at};
ghost use Rattle.example_setting.specs.Setting.{Holds, Setting, WasStored};

/// Each value that a seat read was stored, by some seat; and so was the value of what the cell holds. The call does
/// nothing.
pub fn each_value_was_stored()
    ensures read { (cell : ℕ) (p : Plain) (views : List View) → Setting cell p views
        → (n : ℕ) (value : List ℕ) → Contains (view_at views n).read value
        → WasStored views value }
    ensures held { (cell : ℕ) (p : Plain) (views : List View) → Setting cell p views
        → (s : SlotId) → Holds p cell s → WasStored views (slot_at p s).payload }
{}
