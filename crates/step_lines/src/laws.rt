//! What holds of the definitions themselves.
ghost use Rattle.std.specs.Prelude.{◌≡◌, ℕ, List};
ghost use Rattle.core_events.specs.declared.act.Event.{Event as AnyEvent};
ghost use Rattle.core_events.specs.declared.shape.Shape.{Shape as AnyShape};
ghost use Rattle.step_lines.specs.Spelling.{SpellsEvent, SpellsShape};

/// Words spell one event at most.
pub fn event_is_one()
    ensures { (words : List (List ℕ)) (e f : AnyEvent) →
        SpellsEvent words e → SpellsEvent words f → e ≡ f }
{}

/// Words spell one shape at most.
pub fn shape_is_one()
    ensures { (words : List (List ℕ)) (y z : AnyShape) →
        SpellsShape words y → SpellsShape words z → y ≡ z }
{}
