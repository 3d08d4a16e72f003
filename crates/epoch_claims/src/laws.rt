//! Laws about claims and makes, of every state that has a history.
ghost use Rattle.std.specs.Prelude.{ℕ, ◌≡◌, ◌+◌, ◌<◌, ◌≤◌, List, length};
ghost use Rattle.core_law.specs.core_events.declared.shape.Quota.{Quota};
ghost use Rattle.core_law.specs.plain_state.declared.slot.SlotId.{SlotId};
ghost use Rattle.epoch_core.specs.declared.act.EpochEvent.{EpochEvent};
ghost use Rattle.epoch_core.specs.declared.shape.EpochShape.{EpochShape};
ghost use Rattle.epoch_core.specs.declared.view.EpochView.{EpochView};
ghost use Rattle.epoch_core.specs.Counts.{total};
ghost use Rattle.epoch_core.specs.Runs.{AreQuotas, Core, History, IsShape, view_at};
ghost use Rattle.epoch_core.specs.Steps.{HasMake};
ghost use Rattle.epoch_claims.specs.Claims.{ShowsTaken, claimed, claims, makes_given, makes_used};

/// The seats have claimed slots exactly as often as they have used makes.
pub fn claims_are_makes()
    ensures { (z : EpochShape) (qs : List Quota) (es : List EpochEvent) (c : Core) → IsShape z
        → AreQuotas z qs → History z qs es c
        → total (λ (v : EpochView). length (claimed v)) c.views ≡ makes_used c }
{}

/// A slot that the trail of a seat shows taken, at whichever of its events, was claimed.
pub fn shown_slots_were_claimed()
    ensures { (z : EpochShape) (qs : List Quota) (es : List EpochEvent) (c : Core) (n : ℕ)
        (s : SlotId) → IsShape z → AreQuotas z qs → History z qs es c → n < z.seats
        → s.0 < z.slots → ShowsTaken s (view_at c n).trail → 0 < claims c s }
{}

/// The seats have used no more makes than they were given, and fewer where one of them has a make left.
pub fn makes_fit()
    ensures all { (z : EpochShape) (qs : List Quota) (es : List EpochEvent) (c : Core) → IsShape z
        → AreQuotas z qs → History z qs es c → makes_used c ≤ makes_given qs }
    ensures spare { (z : EpochShape) (qs : List Quota) (es : List EpochEvent) (c : Core) (n : ℕ)
        → IsShape z → AreQuotas z qs → History z qs es c → n < z.seats → HasMake (view_at c n)
        → makes_used c < makes_given qs }
{}

/// Where the trail of a seat shows each slot taken and the seat has a make left, more makes were given than there are
/// slots.
pub fn taken_slots_were_made()
    ensures { (z : EpochShape) (qs : List Quota) (es : List EpochEvent) (c : Core) (n : ℕ)
        → IsShape z → AreQuotas z qs → History z qs es c → n < z.seats → HasMake (view_at c n)
        → ((s : SlotId) → s.0 < z.slots → ShowsTaken s (view_at c n).trail)
        → z.slots < makes_given qs }
{}

/// Where the trail of a seat shows each slot taken, there are no more slots than the makes that this seat has used and
/// those that all other seats were given.
pub fn taken_slots_fit_makes()
    ensures { (z : EpochShape) (qs : List Quota) (es : List EpochEvent) (c : Core) (n : ℕ)
        → IsShape z → AreQuotas z qs → History z qs es c → n < z.seats
        → ((s : SlotId) → s.0 < z.slots → ShowsTaken s (view_at c n).trail)
        → z.slots + (view_at c n).quota.makes ≤ makes_given qs + (view_at c n).makes }
{}
