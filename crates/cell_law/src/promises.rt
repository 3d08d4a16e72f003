//! What the law gives a caller.
ghost use Rattle.std.specs.Prelude.{◌≡◌, ◌≢◌, ℕ, ◌<◌, ◌≤◌, false, true, List, [], length, sum, None};
ghost use Rattle.plain_protocol.specs.plain_state.declared.slot.SlotId.{SlotId};
ghost use Rattle.plain_protocol.specs.plain_state.declared.slot.Stage.TheVariants.{Live};
ghost use Rattle.plain_protocol.specs.plain_state.Fits.{AllFit};
ghost use Rattle.plain_protocol.specs.plain_state.Lawful.{Lawful};
ghost use Rattle.plain_protocol.specs.plain_state.Lists.{cell_times};
ghost use Rattle.plain_protocol.specs.plain_state.State.{Plain, slot_at, stage_at};
ghost use Rattle.plain_protocol.specs.plain_state.Steps.{IsSeat};
ghost use Rattle.plain_protocol.specs.Laws.{Meets};
ghost use Rattle.plain_protocol.specs.Owns.{is_alone, own_part};
ghost use Rattle.directory_law.specs.Cells.{Area, on};
ghost use Rattle.directory_law.specs.Bytes.{IsPiece, text_bytes};
ghost use Rattle.directory_law.specs.Payloads.{IsHead, Text};
ghost use Rattle.directory_law.specs.Views.{In, rope};
ghost use Rattle.cell_law.specs.Views.{AreDistinct, BoundIn, IsOpen, MayBind, Sight, View, all_bound, texts_of, view_at, words_of};
ghost use Rattle.cell_law.specs.Cells.{BindsAlone, HasRoom, Stands, cell};
ghost use Rattle.cell_law.specs.Law.{CellLaw};
ghost use Rattle.cell_law.specs.Walks.{HasAll, Walked};
ghost use Rattle.cell_law.specs.Promises.{CellsAreBound, HeldByCells, IsAbsent, IsOwnedBehind, IsSettled, KeepsText, KnowsAll, SeenRecord, owned_times};

/// Until seat 0 clears cells, the texts of set cells are those that views list as bound; texts of different cells
/// differ, and every cell from a text's place, around the end, to its cell is set. No two heads that views list have
/// one text, or one word, whether cells were cleared or not; and each has its text as long as it lives in its life.
pub fn set_cells_are_bound()
    ensures cells { (z : Area) (p : Plain) (views : List View) → Lawful p → CellLaw z p views
        → IsOpen views → CellsAreBound z p views }
    ensures distinct { (z : Area) (p : Plain) (views : List View) → CellLaw z p views
        → AreDistinct (texts_of (all_bound views)) × AreDistinct (words_of (all_bound views)) }
    ensures texts { (z : Area) (p : Plain) (views : List View) → CellLaw z p views
        → (s : SlotId) (l : ℕ) (text : Text) → BoundIn views s l text → KeepsText p s l text }
{}

/// Of the heads that views list, two with one word are one; and one life of a slot has one text.
pub fn one_head_one_word()
    ensures head { (z : Area) (p : Plain) (views : List View) → CellLaw z p views
        → (s r : SlotId) (l k : ℕ) (text other : Text) → BoundIn views s l text
        → BoundIn views r k other → text_bytes text ≡ text_bytes other
        → (s ≡ r) × (l ≡ k) × (text ≡ other) }
    ensures text { (z : Area) (p : Plain) (views : List View) → CellLaw z p views
        → (s : SlotId) (l : ℕ) (text other : Text) → BoundIn views s l text
        → BoundIn views s l other → text ≡ other }
{}

/// Once seat 0 is alone, its view lists all heads that were bound: those that it bound itself apart from those of the
/// seats that have left. No text is listed twice.
pub fn the_root_knows_all_texts()
    ensures { (z : Area) (p : Plain) (views : List View) → CellLaw z p views
        → is_alone p 0 ≡ true → KnowsAll views (view_at views 0) }
{}

/// A record that a seat saw in a cell stands there until seat 0 clears cells. The payloads of the slots that the seat
/// saw of it, as it has them, begin its text; where they are a text, it is that one.
pub fn a_found_record_is_the_text()
    ensures { (z : Area) (p : Plain) (views : List View) (n : ℕ) (e : Sight)
        → Meets (CellLaw z) p views → IsSeat p n → (view_at views n).cleared ≡ false
        → In e (view_at views n).seen → e.slots ≢ [] → HasAll (own_part p n) e.slots
        → SeenRecord z p n e }
{}

/// Where the walk of a seat comes to a null cell, no cell holds a record of the text, and no view lists it.
pub fn null_cell_means_absent()
    ensures { (z : Area) (p : Plain) (views : List View) (n : ℕ) (text : Text) (m : ℕ)
        → Meets (CellLaw z) p views → IsSeat p n → (view_at views n).cleared ≡ false
        → Walked z (own_part p n) (view_at views n) text m → cell z p (on z text m) ≡ None
        → IsAbsent z p views text }
{}

/// No more heads are listed than were granted, and fewer where a seat may put one more into a cell. So some cell is
/// null then, where not more was granted than there are cells. Where all was granted to one seat, it has bound itself
/// what any view lists.
pub fn grants_bound_heads()
    ensures few { (z : Area) (p : Plain) (views : List View) → CellLaw z p views
        → length (all_bound views) ≤ sum z.interns }
    ensures fewer { (z : Area) (p : Plain) (views : List View) → CellLaw z p views
        → (n : ℕ) → n < length views → MayBind (view_at views n)
        → length (all_bound views) < sum z.interns }
    ensures room { (z : Area) (p : Plain) (views : List View) → CellLaw z p views
        → (n : ℕ) → n < length views → HasRoom z p (view_at views n) }
    ensures alone { (z : Area) (p : Plain) (views : List View) → CellLaw z p views
        → (n : ℕ) → n < length views → BindsAlone z (view_at views n)
        → (s : SlotId) (l : ℕ) (text : Text) → BoundIn views s l text
        → In (rope s l text) (view_at views n).bound }
{}

/// No field holds a head: the references to it are those that seats own, those that are deferred, and that of its cell.
/// A slot stands in one cell at most; where the range is all the cells, one that stands in it is held by one cell.
pub fn heads_are_held_by_cells()
    ensures references { (z : Area) (p : Plain) (views : List View) → Lawful p → CellLaw z p views
        → AllFit IsPiece p → (s : SlotId) → stage_at p s ≡ Live → IsHead (slot_at p s).payload
        → HeldByCells p s }
    ensures cell { (z : Area) (p : Plain) (views : List View) → CellLaw z p views
        → z.first ≡ 0 → length p.cells ≤ z.cells → (s : SlotId) → Stands z p s
        → cell_times s p.cells ≡ 1 }
{}

/// Where the state is settled, each object that lives is owned, or stands behind one that is, along field 1. So nothing
/// lives where besides nothing is owned.
pub fn what_lives_is_owned()
    ensures owned { (z : Area) (p : Plain) (views : List View) → Lawful p → CellLaw z p views
        → IsSettled p → (s : SlotId) → stage_at p s ≡ Live → IsOwnedBehind p s }
    ensures none { (z : Area) (p : Plain) (views : List View) → Lawful p → CellLaw z p views
        → IsSettled p → ((s : SlotId) → owned_times p s ≡ 0) → (s : SlotId)
        → stage_at p s ≢ Live }
{}
