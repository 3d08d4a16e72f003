//! What the law gives a caller.
ghost use Rattle.std.specs.Prelude.{◌≡◌, ◌+◌, ◌<◌, ◌≤◌, ℕ, List, [], ◌∷◌, Some, None, length, slice_set, sum};
ghost use Rattle.plain_protocol.specs.plain_state.declared.act.EventPlace.TheVariants.{Field, WeakCell};
ghost use Rattle.plain_protocol.specs.plain_state.declared.act.PlainAct.{PlainAct};
ghost use Rattle.plain_protocol.specs.plain_state.declared.act.PlainAct.TheVariants as act;
ghost use Rattle.plain_protocol.specs.plain_state.declared.slot.SlotId.{SlotId};
ghost use Rattle.plain_protocol.specs.plain_state.declared.slot.Stage.TheVariants.{Live};
ghost use Rattle.plain_protocol.specs.plain_state.State.{Plain, slot_at, stage_at};
ghost use Rattle.plain_protocol.specs.plain_state.Lists.{times};
ghost use Rattle.plain_protocol.specs.plain_state.Lawful.{Lawful};
ghost use Rattle.plain_protocol.specs.Owns.{OwnPart};
ghost use Rattle.directory_law.specs.Payloads.{Text, IsPart, IsText};
ghost use Rattle.directory_law.specs.Views.{Rope, view_at, keeps, KeptIn};
ghost use Rattle.directory_law.specs.Chains.{Reads};
ghost use Rattle.directory_law.specs.Cells.{Area, cell, on, LiveRecord, Stands};
ghost use Rattle.directory_law.specs.Learnt.{Running};
ghost use Rattle.directory_law.specs.Law.{DirectoryLaw, IsBound, NoneBound};
ghost use Rattle.directory_law.specs.Steps.{life_in, payload_in};
ghost use Rattle.directory_law.specs.Walks.{Walked};
ghost use Rattle.directory_law.specs.Making.{BindReady, LinkReady, alone, link_next, make_next};
ghost use Rattle.directory_law.specs.Promises.{IsSetCell, OneRecord, WithinInterns, PartsStandOnce, NoLive, IsKept, at_head, begins_at};

use crate::view::View;

/// A set cell has one text, which a view keeps, and every cell from the text's place, around the end, to it is set.
/// Its slot is a head, alive or not, and has this text wherever that can be read.
pub fn set_cells_have_texts()
    ensures { (z : Area) (p : Plain) (views : List View) → DirectoryLaw z p views
        → (c : ℕ) (s : SlotId) → c < z.cells → cell z p c ≡ Some s → IsSetCell z p views c s }
{}

/// Each text has at most one live record. It stands in a cell of its text, and every cell from the text's place to it
/// is set.
#[tactic(auto, using(crate::proofs::Gives::one_record))]
pub fn one_live_record()
    ensures { (z : Area) (p : Plain) (views : List View) → DirectoryLaw z p views
        → OneRecord z p views }
{}

/// Set cells are at most as many as the interns used, and these at most those that seats and tickets were given.
#[tactic(auto, using(crate::proofs::Gives::within_interns))]
pub fn cells_within_interns()
    ensures { (z : Area) (p : Plain) (views : List View) → DirectoryLaw z p views
        → WithinInterns z p views }
{}

/// Where no more interns are given than there are cells, a walk by a seat that has one left comes to a null cell.
pub fn room_for_an_intern()
    ensures { (z : Area) (p : Plain) (views : List View) (n : ℕ) (text : Text)
        → sum z.interns + sum z.grants ≤ z.cells → DirectoryLaw z p views → n < length views
        → (view_at views n).used < (view_at views n).quota
        → ¬ (Walked z (view_at views n) text z.cells) }
{}

/// Field 0 of each slot of the directory is null. Field 1 leads to a live part, to which no other leads; no part
/// stands in a cell, and no slot reaches itself.
#[tactic(auto, using(crate::proofs::Gives::parts_stand_once))]
pub fn parts_are_linked_once()
    ensures { (z : Area) (p : Plain) (views : List View) → Lawful p → DirectoryLaw z p views
        → PartsStandOnce z p }
{}

/// A slot that was found in a cell, alive and without a zero mark, is the live record of its text; and where no cell
/// has one, the text has no live record.
pub fn live_where_bound()
    ensures bound { (z : Area) (p : Plain) (views : List View) → DirectoryLaw z p views
        → (text : Text) (s : SlotId) → IsBound z p text s → LiveRecord p views s }
    ensures none { (z : Area) (p : Plain) (views : List View) → DirectoryLaw z p views
        → (text : Text) → NoneBound z p text → NoLive p views text }
{}

/// Each life is kept at most once. What is kept stands in a cell, in the life for which it is kept. As long as it
/// lives it has its text, so no field of that changes; and its text may be read from the head on.
pub fn kept_texts_stay()
    ensures once { (z : Area) (p : Plain) (views : List View) → DirectoryLaw z p views
        → (s : SlotId) (l : ℕ) → keeps views s l ≤ 1 }
    ensures stands { (z : Area) (p : Plain) (views : List View) → DirectoryLaw z p views
        → (s : SlotId) (l : ℕ) → 0 < keeps views s l
        → Stands z p s × ((slot_at p s).life ≡ l) }
    ensures reads { (z : Area) (p : Plain) (views : List View) → DirectoryLaw z p views
        → (s : SlotId) (text : Text) → KeptIn views s (slot_at p s).life text
        → stage_at p s ≡ Live → Reads p s text × IsText text }
    ensures runs { (z : Area) (p : Plain) (views : List View) → DirectoryLaw z p views
        → (s : SlotId) → IsKept p views s → Running p views (at_head p s) }
{}

/// A seat that learns by whatever means that a head is kept, in the life that it is in, may note that it reads it from
/// its head on.
pub fn kept_heads_may_be_read()
    ensures { (z : Area) (p : Plain) (views : List View) (n : ℕ) → DirectoryLaw z p views
        → n < length views → (s : SlotId) → IsKept p views s
        → DirectoryLaw z p (slice_set views n (begins_at p s (view_at views n))) }
{}

/// The deeds that make a record follow one another. Where a part was made and then a slot, the slot can be linked to
/// the part; and then it has the text of both, and can be bound in the cell at the text's place.
pub fn records_are_made_in_turn()
    ensures links { (v : View) (r s : SlotId) (first second third fourth own : OwnPart)
        → alone second r ≡ alone own r → alone fourth s ≡ alone own s
        → 0 < times s own.seat.owned → 0 < times r own.seat.owned → IsPart (payload_in own r)
        → let w = make_next first second v (act.Make r) 0 in
        LinkReady own (make_next third fourth w (act.Make s) 0) (act.Replace (Field s 1) (Some r)) }
    ensures binds { (z : Area) (v : View) (r s : SlotId) (own after later : OwnPart)
        (step : PlainAct) (es : List Rope)
        → v.noted ≡ alone own s ∷ alone own r ∷ es
        → life_in later s ≡ life_in own s → 0 < times s later.seat.owned
        → 0 < z.cells → v.used < v.quota → IsText (payload_in own s ∷ payload_in own r ∷ [])
        → let place = on z (payload_in own s ∷ payload_in own r ∷ []) 0 in
        BindReady z later (link_next own after v step 0)
        (act.TryReplace (WeakCell (z.first + place)) None (Some s)) }
{}
