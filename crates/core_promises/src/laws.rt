//! Promises about histories, and about each event that is enabled where the invariant holds.
ghost use Rattle.std.specs.Prelude.{ℕ, ◌≡◌, ◌<◌, ◌≤◌, false, List, [], ◌∷◌, ◌++◌, length, sum};
ghost use Rattle.core_law.specs.plain_state.Lawful.{Lawful};
ghost use Rattle.core_law.specs.plain_state.declared.slot.SlotId.{SlotId};
ghost use Rattle.core_law.specs.core_events.declared.act.Act.{Act};
ghost use Rattle.core_law.specs.core_events.declared.act.Event.{Event};
ghost use Rattle.core_law.specs.core_events.declared.shape.Shape.{Shape};
ghost use Rattle.core_law.specs.core_events.Runs.{AreEnabled, AreTerms, Core, Enabled, History, IsShape, found, moves_of, newest_first, run, start, view_at};
ghost use Rattle.core_law.specs.core_events.Shows.{shows};
ghost use Rattle.core_law.specs.core_events.Steps.{answer};
ghost use Rattle.core_law.specs.core_events.Views.{Terms, granted};
ghost use Rattle.core_law.specs.Sound.{Sound};
ghost use Rattle.core_law.specs.Shown.{AllShow};
ghost use Rattle.core_promises.specs.Finds.{DeferredFit, NeverWraps, TellsTruly};
ghost use Rattle.core_promises.specs.Destroyed.{DestroyedOnce};
ghost use Rattle.core_promises.specs.Made.{MadeByStarts};
ghost use Rattle.core_law.specs.core_events.declared.view.Move.{Move};
ghost use Rattle.core_promises.specs.Trails.{HasEvent, trail_of};

/// After every list of events that are enabled in turn the core shows a lawful plain state.
pub fn always_lawful()
    ensures { (z : Shape) (ts : Terms) (es : List Event) → IsShape z → AreTerms z ts
        → AreEnabled z (start z ts) es → Lawful (shows z (run z (start z ts) es)) }
{}

/// So does every state that has a history: the state of a running domain between any two steps.
pub fn history_lawful()
    ensures { (z : Shape) (ts : Terms) (es : List Event) (c : Core) → IsShape z → AreTerms z ts
        → History z ts es c → Lawful (shows z c) }
{}

/// Each of these events shows exactly one plain step.
pub fn always_shows()
    ensures { (z : Shape) (ts : Terms) (es : List Event) → IsShape z → AreTerms z ts
        → AreEnabled z (start z ts) es → AllShow z (start z ts) es }
{}

/// No counter word wraps, in either direction.
pub fn never_wraps()
    ensures { (z : Shape) (c : Core) (n : ℕ) (a : Act) → Sound z c → Enabled z c n a
        → NeverWraps z c n a }
{}

/// An answer about an object tells what is so at that step: an upgrade fails only on a count that is 0 then, who is
/// told that it has ended an object found none that refer to it, and who is told that one is alive found one that does.
pub fn answers_tell_truly()
    ensures { (z : Shape) (c : Core) (n : ℕ) (a : Act) → Sound z c → Enabled z c n a
        → TellsTruly z c n a (answer z a (found z c n a) (view_at c n)) }
{}

/// The trail of every seat is its events, with their answers, in order: also of one that has left, whose trail stands
/// with seat 0.
pub fn trails_tell()
    ensures { (z : Shape) (ts : Terms) (es : List Event) (n : ℕ) → IsShape z → AreTerms z ts
        → AreEnabled z (start z ts) es → n < z.seats
        → trail_of (run z (start z ts) es) n ≡ moves_of z (start z ts) n es }
{}

/// The events of a history, the oldest first, are enabled in turn and lead to its state. So whatever holds after every
/// list of events holds of every state that has a history.
pub fn history_runs()
    ensures { (z : Shape) (ts : Terms) (es : List Event) (c : Core) → History z ts es c
        → AreEnabled z (start z ts) (newest_first es [])
        × (c ≡ run z (start z ts) (newest_first es [])) }
{}

/// The trail of every seat is its events in the history, with their answers, in order, between any two steps of a
/// running domain.
pub fn history_trails()
    ensures { (z : Shape) (ts : Terms) (es : List Event) (c : Core) (n : ℕ) → IsShape z
        → AreTerms z ts → History z ts es c → n < z.seats
        → trail_of c n ≡ moves_of z (start z ts) n (newest_first es []) }
{}

/// The last move of the trail of a seat that hasn't left is an event of the history, which tells the state in which the
/// seat made it.
pub fn last_move_happened()
    ensures { (z : Shape) (ts : Terms) (es : List Event) (c : Core) (n : ℕ) (ms : List Move)
        (m : Move) → IsShape z → AreTerms z ts → History z ts es c → n < z.seats
        → (view_at c n).left ≡ false → (view_at c n).trail ≡ ms ++ m ∷ []
        → HasEvent z ts es n m.act }
{}

/// Over every history a seat has made each slot as often as the starts of its trail are of that slot, and those of the
/// seats that left to it. So the lives of a slot are the starts that made it.
pub fn made_by_starts()
    ensures { (z : Shape) (ts : Terms) (es : List Event) (c : Core) (n : ℕ) → IsShape z
        → AreTerms z ts → History z ts es c → n < z.seats → MadeByStarts (view_at c n) }
{}

/// What is deferred is bounded by the sizes of the domain.
pub fn deferred_fit()
    ensures { (z : Shape) (c : Core) → Sound z c → DeferredFit z c }
{}

/// So it is in every state that has a history: as each step call of a running domain tells one.
pub fn history_deferred_fit()
    ensures { (z : Shape) (ts : Terms) (es : List Event) (c : Core) → IsShape z → AreTerms z ts
        → History z ts es c → DeferredFit z c }
{}

/// What the tickets of a seat grant together is at most what all grants make: no ticket grants twice.
pub fn grants_fit()
    ensures { (z : Shape) (c : Core) (n : ℕ) → Sound z c → n < length c.views
        → granted (view_at c n).grants (view_at c n).tickets ≤ sum (view_at c n).grants }
{}

/// Over every history each object is destroyed at most once.
pub fn destroyed_once()
    ensures { (z : Shape) (ts : Terms) (es : List Event) (c : Core) (s : SlotId) → IsShape z
        → AreTerms z ts → History z ts es c → s.0 < z.slots → DestroyedOnce z es c s }
{}
