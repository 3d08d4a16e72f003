//! What the references that seat 0 keeps to records of files' words tell.
ghost use Rattle.std.specs.Prelude.{◌≡◌, ◌<◌, ◌↔◌, ℕ, List, [], slice_index_or};
ghost use Rattle.plain_audit.specs.plain_state.declared.slot.SlotId.{SlotId};
ghost use Rattle.plain_audit.specs.plain_state.Lists.{times};
ghost use Rattle.plain_audit.specs.plain_state.References.{strong_refs};
ghost use Rattle.plain_audit.specs.plain_state.State.{Plain, seat_at};
ghost use Rattle.words_law.specs.queue_law.Chain.{Ends};
ghost use Rattle.words_law.specs.directory_law.Bytes.{AreBytes};
ghost use Rattle.words_law.specs.directory_law.Cells.{Area};
ghost use Rattle.words_law.specs.cdrc_text.Fold.{File, holders_in};
ghost use Rattle.words_law.specs.Views.{View, directories, gone};
ghost use Rattle.words_rest.specs.Kept.{KeepsRecordsOf, TellsWord};
ghost use Rattle.words_rest.specs.Nodes.{HasNoNode};
ghost use Rattle.words_rest.specs.Records.{word_at};
ghost use Rattle.words_rest.specs.Rest.{IsLeft, OwnsHeads};

/// Where seat 0's view tells the words of the references that it owns, it owns heads; and of each slot that is kept it
/// tells a word.
pub fn kept_references_are_heads()
    ensures heads { (u : Ends) (z : Area) (p : Plain) (views : List View) (lives : SlotId → ℕ)
        (files : List File) (kept : List SlotId)
        → KeepsRecordsOf u z p views lives files kept
        → ((n : ℕ) → 0 < n → (seat_at p n).owned ≡ []) → OwnsHeads p (directories views) }
    ensures told { (u : Ends) (z : Area) (p : Plain) (views : List View) (lives : SlotId → ℕ)
        (files : List File) (kept : List SlotId)
        → KeepsRecordsOf u z p views lives files kept
        → (s : SlotId) → 0 < times s kept
        → (w : List ℕ) × TellsWord (slice_index_or views 0 gone).1 w s (lives s) }
{}

/// A word that the view tells of a kept slot is the word of that slot; and kept slots with one word are one slot.
pub fn one_word_one_slot()
    ensures word { (u : Ends) (z : Area) (p : Plain) (views : List View) (lives : SlotId → ℕ)
        (files : List File) (kept : List SlotId)
        → KeepsRecordsOf u z p views lives files kept
        → (s : SlotId) → 0 < times s kept → (w : List ℕ) → AreBytes w
        → TellsWord (slice_index_or views 0 gone).1 w s (lives s) → w ≡ word_at p views s }
    ensures slot { (u : Ends) (z : Area) (p : Plain) (views : List View) (lives : SlotId → ℕ)
        (files : List File) (kept : List SlotId)
        → KeepsRecordsOf u z p views lives files kept
        → (s t : SlotId) → 0 < times s kept → 0 < times t kept
        → word_at p views s ≡ word_at p views t → s ≡ t }
{}

/// A slot is kept as often as there are files with its word. Where the state is at rest and no node is left, these are
/// all references to it.
pub fn kept_references_count_files()
    ensures counts { (u : Ends) (z : Area) (p : Plain) (views : List View) (lives : SlotId → ℕ)
        (files : List File) (kept : List SlotId)
        → KeepsRecordsOf u z p views lives files kept
        → (s : SlotId) → 0 < times s kept → times s kept ≡ holders_in (word_at p views s) files }
    ensures refs { (u : Ends) (z : Area) (p : Plain) (views : List View) (lives : SlotId → ℕ)
        (files : List File) (kept : List SlotId)
        → KeepsRecordsOf u z p views lives files kept
        → IsLeft p views → HasNoNode p → (s : SlotId) → 0 < times s kept
        → strong_refs p s ≡ holders_in (word_at p views s) files }
{}

/// The words of the kept slots are those of the files.
pub fn words_of_kept_are_those_of_files()
    ensures { (u : Ends) (z : Area) (p : Plain) (views : List View) (lives : SlotId → ℕ)
        (files : List File) (kept : List SlotId)
        → KeepsRecordsOf u z p views lives files kept → (w : List ℕ)
        → (0 < holders_in w files)
        ↔ ((s : SlotId) × (0 < times s kept) × (word_at p views s ≡ w)) }
{}
