//! That just the records to which seat 0 kept references are left.
ghost use Rattle.std.specs.Prelude.{◌≡◌, ◌≢◌, ℕ, List, [], length, sum_by};
ghost use Rattle.plain_audit.specs.plain_state.declared.slot.SlotId.{SlotId};
ghost use Rattle.plain_audit.specs.plain_state.declared.slot.Stage.TheVariants.{Live};
ghost use Rattle.plain_audit.specs.plain_state.Lawful.{Lawful};
ghost use Rattle.plain_audit.specs.plain_state.State.{Plain, seat_at, stage_at};
ghost use Rattle.plain_audit.specs.Audits.{IsAudit, live_bytes, live_slots};
ghost use Rattle.record_counts.specs.cdrc_text.Fold.{File};
ghost use Rattle.record_counts.specs.cdrc_text.Text.{slots_of_word};
ghost use Rattle.record_counts.specs.Records.{AreOwned, FindsRecords, IsAllReached};
ghost use Rattle.cell_law.specs.directory_law.Bytes.{piece_weight};
ghost use Rattle.cell_law.specs.directory_law.Cells.{Area};
ghost use Rattle.cell_law.specs.Law.{CellLaw};
ghost use Rattle.cell_law.specs.Promises.{IsSettled, owned_times};
ghost use Rattle.cell_law.specs.declared.view.View.{View};
ghost use Rattle.cell_law.specs.Views.{view_at};
ghost use Rattle.cell_rest.specs.Kept.{KeepsRecordsOf};
ghost use Rattle.cell_rest.specs.Rest.{HasNoneDeferred};
ghost use Rattle.cell_rest.specs.Words.{words_at};

use plain_audit::Audit;

/// Where the state is settled, what lives are the slots of the kept records: as many as their words take, and they
/// weigh as much as these have bytes. Nothing is unreached.
pub fn records_are_left()
    ensures slots { (z : Area) (p : Plain) (views : List View) (files : List File)
        (kept : List SlotId) → KeepsRecordsOf z p views files kept → IsSettled p
        → (heads : List SlotId) → AreOwned p heads
        → live_slots p ≡ sum_by slots_of_word (words_at (view_at views 0) heads) }
    ensures bytes { (z : Area) (p : Plain) (views : List View) (files : List File)
        (kept : List SlotId) → KeepsRecordsOf z p views files kept → IsSettled p
        → (heads : List SlotId) → AreOwned p heads
        → live_bytes piece_weight p
        ≡ sum_by (λ (w : List ℕ). length w) (words_at (view_at views 0) heads) }
    ensures reached { (z : Area) (p : Plain) (views : List View) (files : List File)
        (kept : List SlotId) → KeepsRecordsOf z p views files kept → IsSettled p
        → IsAllReached p }
{}

/// Where besides nothing is owned, as where no seat has anything in its list, nothing lives, whatever it would weigh.
pub fn nothing_is_left()
    ensures unowned { (p : Plain) → ((n : ℕ) → (seat_at p n).owned ≡ []) → (s : SlotId)
        → owned_times p s ≡ 0 }
    ensures none { (z : Area) (p : Plain) (views : List View) → Lawful p → CellLaw z p views
        → IsSettled p → ((s : SlotId) → owned_times p s ≡ 0)
        → (s : SlotId) → stage_at p s ≢ Live }
    ensures slots { (z : Area) (p : Plain) (views : List View) → Lawful p → CellLaw z p views
        → IsSettled p → ((s : SlotId) → owned_times p s ≡ 0) → live_slots p ≡ 0 }
    ensures bytes { (z : Area) (p : Plain) (views : List View) → Lawful p → CellLaw z p views
        → IsSettled p → ((s : SlotId) → owned_times p s ≡ 0)
        → (weight : List ℕ → ℕ) → live_bytes weight p ≡ 0 }
{}

/// An audit finds the kept records and nothing else, where the state is settled and nothing is deferred; and it finds
/// nothing where besides nothing is owned.
pub fn audits_find_records()
    ensures held { (z : Area) (p : Plain) (views : List View) (files : List File)
        (kept : List SlotId) → KeepsRecordsOf z p views files kept → IsSettled p
        → HasNoneDeferred p → (heads : List SlotId) → AreOwned p heads
        → (ranks : List ℕ) (found : Audit) → IsAudit piece_weight ranks p found
        → FindsRecords (words_at (view_at views 0) heads) found }
    ensures freed { (z : Area) (p : Plain) (views : List View) → Lawful p → CellLaw z p views
        → IsSettled p → HasNoneDeferred p → ((s : SlotId) → owned_times p s ≡ 0)
        → (weight : List ℕ → ℕ) (ranks : List ℕ) (found : Audit)
        → IsAudit weight ranks p found → FindsRecords [] found }
{}
