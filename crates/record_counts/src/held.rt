//! What lives where a state holds records alone.
ghost use Rattle.std.specs.Prelude.{◌≡◌, ◌≢◌, ◌<◌, ℕ, List};
ghost use Rattle.plain_audit.specs.plain_state.declared.slot.SlotId.{SlotId};
ghost use Rattle.plain_audit.specs.plain_state.declared.slot.Stage.TheVariants.{Live};
ghost use Rattle.plain_audit.specs.plain_state.Lawful.{Lawful};
ghost use Rattle.plain_audit.specs.plain_state.Lists.{times};
ghost use Rattle.plain_audit.specs.plain_state.State.{Plain, seat_at, stage_at};
ghost use Rattle.directory_law.specs.declared.view.View.{View};
ghost use Rattle.directory_law.specs.Cells.{Area};
ghost use Rattle.directory_law.specs.Law.{DirectoryLaw};
ghost use Rattle.plain_audit.specs.Audits.{IsAudit, live_bytes, live_slots};
ghost use Rattle.record_counts.specs.Records.{HoldsRecords, IsAllReached};

use plain_audit::Audit;

/// Nothing is unreached, so an audit counts no such slot.
pub fn what_is_held_is_reached()
    ensures all { (z : Area) (p : Plain) (views : List View) → Lawful p → DirectoryLaw z p views
        → HoldsRecords p → IsAllReached p }
    ensures audited { (z : Area) (p : Plain) (views : List View) → Lawful p
        → DirectoryLaw z p views → HoldsRecords p → (weight : List ℕ → ℕ) (ranks : List ℕ)
        (found : Audit) → IsAudit weight ranks p found → found.cyclic ≡ 0 }
{}

/// Where besides seat 0 owns nothing, nothing lives, whatever it would weigh.
pub fn nothing_is_held()
    ensures none { (z : Area) (p : Plain) (views : List View) → Lawful p → DirectoryLaw z p views
        → HoldsRecords p → ((s : SlotId) → times s (seat_at p 0).owned ≡ 0)
        → (s : SlotId) → stage_at p s ≢ Live }
    ensures slots { (p : Plain) → ((s : SlotId) → stage_at p s ≢ Live) → live_slots p ≡ 0 }
    ensures bytes { (p : Plain) → ((s : SlotId) → stage_at p s ≢ Live) → (weight : List ℕ → ℕ)
        → live_bytes weight p ≡ 0 }
{}
