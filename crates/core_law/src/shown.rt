//! What a core shows is lawful, counts as its words do, and goes by plain steps.
ghost use Rattle.std.specs.Prelude.{ℕ, ◌<◌};
ghost use Rattle.core_events.specs.plain_state.Lawful.{Lawful};
ghost use Rattle.core_events.specs.plain_state.declared.slot.SlotId.{SlotId};
ghost use Rattle.core_events.specs.declared.act.Act.{Act};
ghost use Rattle.core_events.specs.declared.shape.Shape.{Shape};
ghost use Rattle.core_events.specs.Runs.{Core, Enabled};
ghost use Rattle.core_events.specs.Shows.{shows};
ghost use Rattle.core_law.specs.Sound.{Sound};
ghost use Rattle.core_law.specs.Shown.{CountsShown, HeldStays, ShowsStep};

/// A core of which the invariant holds shows a lawful plain state.
#[tactic(auto, using(crate::proofs::Lawful::shows_lawful))]
pub fn sound_is_lawful()
    ensures { (z : Shape) (c : Core) → Sound z c → Lawful (shows z c) }
{}

/// Each event that is enabled in a core of which the invariant holds shows exactly one plain step.
pub fn event_shows()
    ensures { (z : Shape) (c : Core) (n : ℕ) (a : Act) → Sound z c → Enabled z c n a
        → ShowsStep z c n a }
{}

/// A slot's two words count the references of the plain state; the weak word of a slot that a seat has claimed and not
/// yet armed is 0.
pub fn counts_are_shown()
    ensures { (z : Shape) (c : Core) (s : SlotId) → Sound z c → s.0 < z.slots
        → CountsShown z c s }
{}

/// What a seat holds strongly is live, what it holds at all isn't free, and what is under a weak snapshot isn't
/// destroyed.
#[tactic(auto, using(crate::proofs::Told::held_stays))]
pub fn held_stays()
    ensures { (z : Shape) (c : Core) (n : ℕ) (s : SlotId) → Sound z c → n < z.seats
        → HeldStays z c n s }
{}
