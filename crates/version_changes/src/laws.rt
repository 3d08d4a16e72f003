//! What a change of patterns tells the caller that publishes it.
ghost use Rattle.std.specs.Prelude.{ℕ, ◌<◌, ◌≤◌, ◌^◌, Option};
ghost use Rattle.map_law.specs.plain_state.declared.slot.SlotId.{SlotId};
ghost use Rattle.map_trees.specs.Trees.{Balanced, Tree, height};
ghost use Rattle.map_trees.specs.declared.change.Change.{Change};
ghost use Rattle.map_law.specs.Patterns.{Fits, IsChange, Pattern, filled};
ghost use Rattle.map_law.specs.Plans.{height_of};
ghost use Rattle.version_changes.specs.Showing.{HasNodes, most_nodes};
ghost use Rattle.version_changes.specs.Changing.{Alters};

/// A pattern that is another one with the change is the change that a publishing asks for, where the old root keeps a
/// height below 2^62.
pub fn changes_can_be_published()
    ensures { (key : ℕ) (change : Change) (answer : Option ℕ) (before after : Pattern)
        → Alters key change answer before after → height_of before < 2 ^ 62
        → IsChange before after key change answer }
{}

/// A balanced tree is at least as high as any way that a pattern of it has, where nodes stand in the holes. By this a
/// caller that knows the tree to be at most `levels` high refutes `TooLong`.
pub fn ways_are_not_longer()
    ensures { (trees : SlotId → Tree) (pattern : Pattern) → Fits trees pattern
        → HasNodes trees pattern → Balanced (filled trees pattern)
        → most_nodes pattern ≤ height (filled trees pattern) }
{}
