//! What the history of a state tells of its strong cells.
ghost use Rattle.std.specs.Prelude.{ℕ, ◌≡◌, List, Some};
ghost use Rattle.core_promises.specs.plain_state.declared.act.EventPlace.TheVariants.{Cell};
ghost use Rattle.core_promises.specs.plain_state.declared.slot.SlotId.{SlotId};
ghost use Rattle.core_promises.specs.plain_state.Places.{content};
ghost use Rattle.core_promises.specs.plain_state.State.{slot_at};
ghost use Rattle.core_promises.specs.core_events.declared.act.Event.{Event};
ghost use Rattle.core_promises.specs.core_events.declared.shape.Shape.{Shape};
ghost use Rattle.core_promises.specs.core_events.Runs.{AreTerms, Core, History, IsShape};
ghost use Rattle.core_promises.specs.core_events.Shows.{shows};
ghost use Rattle.core_promises.specs.core_events.Views.{Terms};
ghost use Rattle.place_history.specs.Puts.{WasPut};

/// What a strong cell holds was put there by an event of the history, and the cell has held it ever since, with the
/// payload that the object has now.
pub fn what_a_cell_holds_was_put()
    ensures { (z : Shape) (ts : Terms) (es : List Event) (c : Core) (cell : ℕ) (s : SlotId)
        → IsShape z → AreTerms z ts → History z ts es c
        → content (shows z c) (Cell cell) ≡ Some s
        → WasPut z ts es c cell s (slot_at (shows z c) s).payload }
{}
