//! What the references that seat 0 keeps to records of files' words tell.
ghost use Rattle.std.specs.Prelude.{◌≡◌, ◌<◌, ◌≤◌, ◌+◌, ◌↔◌, ℕ, List, length};
ghost use Rattle.plain_audit.specs.plain_state.declared.slot.Kind.TheVariants.{Strong};
ghost use Rattle.plain_audit.specs.plain_state.declared.slot.SlotId.{SlotId};
ghost use Rattle.plain_audit.specs.plain_state.Lists.{times};
ghost use Rattle.plain_audit.specs.plain_state.References.{deferrals, strong_refs};
ghost use Rattle.plain_audit.specs.plain_state.State.{Plain};
ghost use Rattle.record_counts.specs.cdrc_text.Fold.{File, holders_in};
ghost use Rattle.cell_law.specs.directory_law.Bytes.{AreBytes};
ghost use Rattle.cell_law.specs.directory_law.Cells.{Area};
ghost use Rattle.cell_law.specs.Law.{CellLaw};
ghost use Rattle.cell_law.specs.Promises.{IsSettled};
ghost use Rattle.cell_law.specs.declared.view.View.{View};
ghost use Rattle.cell_law.specs.Views.{IsOpen, view_at};
ghost use Rattle.cell_rest.specs.Kept.{KeepsRecordsOf, TellsOfNow, TellsWord};
ghost use Rattle.cell_rest.specs.Words.{word_at};

/// Until cells are cleared, what a view tells of a slot it tells of the life that the slot is in.
pub fn told_lives_are_now()
    ensures { (z : Area) (p : Plain) (views : List View) → CellLaw z p views → IsOpen views
        → (n : ℕ) (s : SlotId) → TellsOfNow p (view_at views n) s }
{}

/// Of each kept slot the view tells a word. Told words of one slot are one, which is the word of that slot; and kept
/// slots with one word are one slot.
pub fn one_word_one_slot()
    ensures told { (z : Area) (p : Plain) (views : List View) (files : List File)
        (kept : List SlotId) → KeepsRecordsOf z p views files kept
        → (s : SlotId) → 0 < times s kept
        → TellsWord (view_at views 0) (word_at (view_at views 0) s) s
        × AreBytes (word_at (view_at views 0) s) }
    ensures word { (z : Area) (p : Plain) (views : List View) (files : List File)
        (kept : List SlotId) → KeepsRecordsOf z p views files kept
        → (s : SlotId) → 0 < times s kept → (w : List ℕ) → AreBytes w
        → TellsWord (view_at views 0) w s → w ≡ word_at (view_at views 0) s }
    ensures slot { (z : Area) (p : Plain) (views : List View) (files : List File)
        (kept : List SlotId) → KeepsRecordsOf z p views files kept
        → (s t : SlotId) → 0 < times s kept → 0 < times t kept
        → word_at (view_at views 0) s ≡ word_at (view_at views 0) t → s ≡ t }
{}

/// A slot is kept as often as there are files with its word. Where the state is settled, these are all references to
/// it; until cells are cleared there is one more, that of its cell, and those that are deferred.
pub fn kept_references_count_files()
    ensures counts { (z : Area) (p : Plain) (views : List View) (files : List File)
        (kept : List SlotId) → KeepsRecordsOf z p views files kept
        → (s : SlotId) → 0 < times s kept → (w : List ℕ) → AreBytes w
        → TellsWord (view_at views 0) w s → times s kept ≡ holders_in w files }
    ensures refs { (z : Area) (p : Plain) (views : List View) (files : List File)
        (kept : List SlotId) → KeepsRecordsOf z p views files kept → IsSettled p
        → (s : SlotId) → 0 < times s kept → (w : List ℕ) → AreBytes w
        → TellsWord (view_at views 0) w s → strong_refs p s ≡ holders_in w files }
    ensures bound { (z : Area) (p : Plain) (views : List View) (files : List File)
        (kept : List SlotId) → KeepsRecordsOf z p views files kept → IsOpen views
        → z.first ≡ 0 → length p.cells ≤ z.cells
        → (s : SlotId) → 0 < times s kept → (w : List ℕ) → AreBytes w
        → TellsWord (view_at views 0) w s
        → strong_refs p s ≡ holders_in w files + 1 + deferrals Strong p s }
{}

/// The words of the kept slots are those of the files: each that the view tells of one has a file, and each that has a
/// file it tells of one.
pub fn words_of_kept_are_those_of_files()
    ensures told { (z : Area) (p : Plain) (views : List View) (files : List File)
        (kept : List SlotId) → KeepsRecordsOf z p views files kept → (w : List ℕ)
        → (0 < holders_in w files)
        ↔ ((s : SlotId) × (0 < times s kept) × AreBytes w × TellsWord (view_at views 0) w s) }
    ensures words { (z : Area) (p : Plain) (views : List View) (files : List File)
        (kept : List SlotId) → KeepsRecordsOf z p views files kept → (w : List ℕ)
        → (0 < holders_in w files)
        ↔ ((s : SlotId) × (0 < times s kept) × (word_at (view_at views 0) s ≡ w)) }
{}
