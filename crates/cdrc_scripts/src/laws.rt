//! What holds of the definitions themselves.
ghost use Rattle.std.specs.Prelude.{◌≡◌, ℕ, Bool, List};
ghost use Rattle.cdrc_scripts.specs.Meaning.{IsScript};

/// A script has one output, which is a refusal or isn't: whichever free slot each make takes, and in whichever order
/// the heap settles.
pub fn scripts_have_one_output()
    ensures { (text bytes others : List ℕ) (refused other : Bool) → IsScript text bytes refused
        → IsScript text others other → (bytes ≡ others) × (refused ≡ other) }
{}
