//! That just the records which seat 0 owns live.
ghost use Rattle.std.specs.Prelude.{◌≡◌, ℕ, List, length, sum_by};
ghost use Rattle.plain_audit.specs.plain_state.declared.slot.SlotId.{SlotId};
ghost use Rattle.plain_audit.specs.plain_state.Lawful.{Lawful};
ghost use Rattle.plain_audit.specs.plain_state.State.{Plain};
ghost use Rattle.directory_law.specs.declared.view.View.{View};
ghost use Rattle.directory_law.specs.Bytes.{piece_weight};
ghost use Rattle.directory_law.specs.Cells.{Area};
ghost use Rattle.directory_law.specs.Law.{DirectoryLaw};
ghost use Rattle.directory_law.specs.Payloads.{Text};
ghost use Rattle.plain_audit.specs.Audits.{live_bytes, live_slots};
ghost use Rattle.cdrc_text.specs.Text.{slots_of_word};
ghost use Rattle.record_counts.specs.Records.{AreOwned, HoldsRecords, OwnsTexts, words_of};

/// What lives are the slots of the records that seat 0 owns: as many as their words take, and they weigh as much as
/// these have bytes.
pub fn records_are_all_that_lives()
    ensures slots { (z : Area) (p : Plain) (views : List View) → Lawful p → DirectoryLaw z p views
        → HoldsRecords p → (text : SlotId → Text) → OwnsTexts p text
        → (heads : List SlotId) → AreOwned p heads
        → live_slots p ≡ sum_by slots_of_word (words_of text heads) }
    ensures bytes { (z : Area) (p : Plain) (views : List View) → Lawful p → DirectoryLaw z p views
        → HoldsRecords p → (text : SlotId → Text) → OwnsTexts p text
        → (heads : List SlotId) → AreOwned p heads
        → live_bytes piece_weight p ≡ sum_by (λ (w : List ℕ). length w) (words_of text heads) }
{}
