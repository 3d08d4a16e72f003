//! What makes an altered version one with a change.
ghost use Rattle.std.specs.Prelude.{ℕ, ◌≡◌, ◌<◌, ◌^◌, Option};
ghost use Rattle.map_trees.specs.declared.change.Change.{Change};
ghost use Rattle.map_law.specs.declared.view.View.{View};
ghost use Rattle.map_law.specs.Patterns.{IsChange, Pattern, Spells};
ghost use Rattle.map_law.specs.Plans.{height_of};
ghost use Rattle.slot_store.specs.counted_handles.Handles.{Handle};
ghost use Rattle.slot_store.specs.acquire_retire.Seats.{SeatState};
ghost use Rattle.version_making.specs.Building.{height_by};
ghost use Rattle.version_making.specs.Standing.{Stands, kid_by};
ghost use Rattle.version_updates.specs.Changes.{IsAltered};
ghost use Rattle.version_updates.specs.Publishing.{MakesVersion};
ghost use Rattle.version_updates.specs.declared.update.Update.{Update};

/// A pattern that is always filled to the altered tree is one with the change, where the old one is low; and the height
/// of a pattern is that of the root from which it is spelled. So whoever has loaded a low root, kept it, and altered
/// its version may publish the new one. The call does nothing.
pub fn altered_versions_are_changes()
    ensures height { (root : Option Handle) (seat : SeatState View) (v : View) (pat : Pattern)
        → Spells v (kid_by root seat) pat → height_of pat ≡ height_by root seat }
    ensures change { (old new : Pattern) (key : ℕ) (change : Change) (answer : Option ℕ)
        → height_of old < 2 ^ 62 → IsAltered old new key change answer
        → IsChange old new key change answer }
    ensures version { (root new : Option Handle) (u : Update) (a b : SeatState View)
        (before after : Pattern) → height_by root a < 2 ^ 62 → kid_by root b ≡ kid_by root a
        → Spells b.view.client (kid_by root a) before → Stands new after b
        → IsAltered before after u.key u.change u.answer → MakesVersion root new u b }
{}
