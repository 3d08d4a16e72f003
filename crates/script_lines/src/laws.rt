//! What holds of the definitions themselves.

ghost use Rattle.std.specs.Prelude.{◌≡◌, ℕ, List, [], ◌∷◌, codes};
ghost use Rattle.script_lines.specs.Spelling.{Spells};
ghost use Rattle.script_lines.specs.declared.command.ScriptLine.{ScriptLine as Line};

/// Words spell one line at most.
pub fn line_is_one()
    ensures { (words : List (List ℕ)) (l m : Line) → Spells l words → Spells m words → l ≡ m }
{}
