//! What holds of the first field that is out of its range.
ghost use Rattle.std.specs.Prelude.{◌≡◌};
ghost use Rattle.core_events.specs.declared.shape.Shape.{Shape};
ghost use Rattle.core_events.specs.declared.shape.ShapeField.{ShapeField};
ghost use Rattle.core_events.specs.Views.{Terms};
ghost use Rattle.core_events.specs.Runs.{AreTerms, IsShape};
ghost use Rattle.core_functions.specs.Fields.{IsFirstBad};

/// At most one field is the first that is out of its range, and none is where all are in theirs.
pub fn one_first_bad()
    ensures one { (z : Shape) (ts : Terms) (f g : ShapeField) → IsFirstBad z ts f
        → IsFirstBad z ts g → f ≡ g }
    ensures none { (z : Shape) (ts : Terms) (f : ShapeField) → IsShape z → AreTerms z ts
        → IsFirstBad z ts f → ⊥ }
{}
