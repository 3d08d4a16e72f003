//! Laws about claims and makes, of every state that has a history.
ghost use Rattle.std.specs.Prelude.{ℕ, ◌≡◌, ◌<◌, ◌≤◌, false, List, length};
ghost use Rattle.core_promises.specs.plain_state.declared.slot.SlotId.{SlotId};
ghost use Rattle.core_promises.specs.core_events.declared.act.Event.{Event};
ghost use Rattle.core_promises.specs.core_events.declared.shape.Shape.{Shape};
ghost use Rattle.core_promises.specs.core_events.declared.view.CoreView.{CoreView};
ghost use Rattle.core_promises.specs.core_events.Counts.{free_bit, total};
ghost use Rattle.core_promises.specs.core_events.Runs.{AreTerms, Core, History, IsShape, view_at};
ghost use Rattle.core_promises.specs.core_events.Steps.{HasMake};
ghost use Rattle.core_promises.specs.core_events.Views.{Terms};
ghost use Rattle.claim_law.specs.Claims.{ShowsTaken, claimed, claims, makes_given, makes_used};

/// The seats have claimed slots exactly as often as they have used makes.
pub fn claims_are_makes()
    ensures { (z : Shape) (ts : Terms) (es : List Event) (c : Core) → IsShape z → AreTerms z ts
        → History z ts es c → total (λ (v : CoreView). length (claimed v)) c.views ≡ makes_used c }
{}

/// A slot whose bit is clear was claimed.
pub fn clear_bits_were_claimed()
    ensures { (z : Shape) (ts : Terms) (es : List Event) (c : Core) (s : SlotId) → IsShape z
        → AreTerms z ts → History z ts es c → s.0 < z.slots → free_bit z c s ≡ 0 → 0 < claims c s }
{}

/// So was one that the trail of a seat shows taken, at whichever of its steps.
pub fn shown_slots_were_claimed()
    ensures { (z : Shape) (ts : Terms) (es : List Event) (c : Core) (n : ℕ) (s : SlotId)
        → IsShape z → AreTerms z ts → History z ts es c → n < z.seats → s.0 < z.slots
        → ShowsTaken s (view_at c n).trail → 0 < claims c s }
{}

/// The seats have used no more makes than they were given, and fewer where one of them has a make
/// left.
pub fn makes_fit()
    ensures all { (z : Shape) (ts : Terms) (es : List Event) (c : Core) → IsShape z → AreTerms z ts
        → History z ts es c → makes_used c ≤ makes_given ts }
    ensures spare { (z : Shape) (ts : Terms) (es : List Event) (c : Core) (n : ℕ) → IsShape z
        → AreTerms z ts → History z ts es c → n < z.seats → (view_at c n).left ≡ false
        → HasMake (view_at c n) → makes_used c < makes_given ts }
{}

/// Where the trail of a seat shows each slot taken and the seat has a make left, more makes were
/// given than there are slots.
pub fn taken_slots_were_made()
    ensures { (z : Shape) (ts : Terms) (es : List Event) (c : Core) (n : ℕ) → IsShape z
        → AreTerms z ts → History z ts es c → n < z.seats → (view_at c n).left ≡ false
        → HasMake (view_at c n)
        → ((s : SlotId) → s.0 < z.slots → ShowsTaken s (view_at c n).trail)
        → z.slots < makes_given ts }
{}
