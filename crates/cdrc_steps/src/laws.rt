//! What holds of the definitions themselves.
ghost use Rattle.std.specs.Prelude.{◌≡◌, ℕ, Bool, List};
ghost use Rattle.cdrc_steps.specs.Meaning.{IsSteps};

/// A text of steps has one output, which is a refusal or isn't.
pub fn steps_write_one()
    ensures { (text bytes others : List ℕ) (refused other : Bool) → IsSteps text bytes refused
        → IsSteps text others other → (bytes ≡ others) × (refused ≡ other) }
{}
