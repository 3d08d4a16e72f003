//! The invariant: it holds at the start, each event keeps it, so it holds after every list of
//! events.
ghost use Rattle.std.specs.Prelude.{ℕ, ◌≡◌, ◌<◌, false, List, []};
ghost use Rattle.core_events.specs.declared.act.Act.{Act};
ghost use Rattle.core_events.specs.declared.act.Event.{Event};
ghost use Rattle.core_events.specs.declared.shape.Shape.{Shape};
ghost use Rattle.core_events.specs.Views.{Terms};
ghost use Rattle.core_events.specs.Good.{Good};
ghost use Rattle.core_events.specs.Runs.{AreEnabled, AreTerms, Core, Enabled, History, IsShape, after, moves_of, newest_first, run, start, view_at};
ghost use Rattle.core_law.specs.Sound.{Sound};

/// For every shape and quotas in their ranges and every list of events that are enabled in turn,
/// the invariant holds of the state after them.
pub fn always_good()
    ensures { (z : Shape) (ts : Terms) (es : List Event) → IsShape z → AreTerms z ts
        → AreEnabled z (start z ts) es → Good z (run z (start z ts) es) }
{}

/// The same of a state that has a history.
pub fn history_good()
    ensures { (z : Shape) (ts : Terms) (es : List Event) (c : Core) → IsShape z
        → AreTerms z ts → History z ts es c → Good z c }
{}

/// The same of a state that has a history, in the form that one event keeps.
pub fn history_is_sound()
    ensures { (z : Shape) (ts : Terms) (es : List Event) (c : Core) → IsShape z
        → AreTerms z ts → History z ts es c → Sound z c }
{}

/// Events that are enabled in turn are the history of the state after them.
pub fn run_has_history()
    ensures { (z : Shape) (ts : Terms) (es : List Event) → AreEnabled z (start z ts) es
        → History z ts (newest_first es []) (run z (start z ts) es) }
{}

/// Each event keeps the invariant, in the form of `invariant`.
pub fn step_keeps()
    ensures { (z : Shape) (c : Core) (n : ℕ) (a : Act) → Sound z c → Enabled z c n a
        → Sound z (after z c n a) }
{}

/// The trail of a seat that hasn't left is its events, with their answers, in order.
pub fn trails_tell()
    ensures { (z : Shape) (ts : Terms) (es : List Event) (n : ℕ) → IsShape z → AreTerms z ts
        → AreEnabled z (start z ts) es → n < z.seats
        → (view_at (run z (start z ts) es) n).left ≡ false
        → (view_at (run z (start z ts) es) n).trail ≡ moves_of z (start z ts) n es }
{}
