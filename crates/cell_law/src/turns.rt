//! How the deeds of a call follow one another.
ghost use Rattle.std.specs.Prelude.{◌≡◌, ◌≢◌, ◌+◌, ◌<◌, ℕ, suc, false, List, [], ◌∷◌, ◌++◌, Some, None};
ghost use Rattle.plain_protocol.specs.plain_state.declared.act.EventPlace.TheVariants.{Cell, Field};
ghost use Rattle.plain_protocol.specs.plain_state.declared.act.PlainAct.{PlainAct};
ghost use Rattle.plain_protocol.specs.plain_state.declared.act.PlainAct.TheVariants as act;
ghost use Rattle.plain_protocol.specs.plain_state.declared.slot.SlotId.{SlotId};
ghost use Rattle.plain_protocol.specs.plain_state.Lists.{times};
ghost use Rattle.plain_protocol.specs.Acts.{IsCalm};
ghost use Rattle.plain_protocol.specs.Owns.{OwnPart};
ghost use Rattle.directory_law.specs.declared.view.Rope.{Rope};
ghost use Rattle.directory_law.specs.Cells.{Area, on};
ghost use Rattle.directory_law.specs.Making.{alone};
ghost use Rattle.directory_law.specs.Payloads.{IsPart, IsText, Text};
ghost use Rattle.directory_law.specs.Steps.{LooksAt, id, life_in, payload_in};
ghost use Rattle.directory_law.specs.Views.{In};
ghost use Rattle.cell_law.specs.Views.{IsWord, MayBind, Sight, View};
ghost use Rattle.cell_law.specs.Lessons.{FindReady, ReadReady, look_next, read_next};
ghost use Rattle.cell_law.specs.Making.{BindReady, LinkReady, Links, link_next, make_next, sees};
ghost use Rattle.cell_law.specs.Walks.{HasAll, KeepsSeen, Passes, SawAll, Walked, last_sight, payloads};

/// A walk begins with no cell passed, and goes on where the next cell is passed. It stays while the seat sees more and
/// keeps what it has of the slots that it saw. A cell is passed where one payload of the record there isn't the text's.
pub fn walks_go_on()
    ensures begins { (z : Area) (own : OwnPart) (v : View) (text : Text) → Walked z own v text 0 }
    ensures further { (z : Area) (own : OwnPart) (v : View) (text : Text) (m : ℕ)
        → Walked z own v text m → Passes own v text (on z text m) → Walked z own v text (m + 1) }
    ensures stays { (z : Area) (own after : OwnPart) (v w : View) (text : Text) (m : ℕ)
        → Walked z own v text m → SawAll v w → KeepsSeen own after v
        → Walked z after w text m }
    ensures differs { (own : OwnPart) (v : View) (e : Sight) (front rest : Text)
        (payload other : List ℕ) → In e v.seen → HasAll own e.slots
        → payloads own e.slots ≡ front ++ other ∷ [] → other ≢ payload
        → Passes own v (front ++ payload ∷ rest) e.cell }
{}

/// The deeds that make a record follow one another. Where a part was made and then a slot, the slot can be linked to
/// the part. A head that was made alone, or linked to its part, can be bound in the cell to which its text's walk has
/// come, where the seat may put one head more into a cell; and again in a further one where the exchange found another
/// head.
pub fn records_are_made_in_turn()
    ensures links { (v : View) (r s : SlotId) (first second third fourth own : OwnPart)
        (step : PlainAct) → alone second r ≡ alone own r → alone fourth s ≡ alone own s
        → 0 < times s own.seat.owned → 0 < times r own.seat.owned → IsPart (payload_in own r)
        → Links s r step
        → let w = make_next first second v (act.Make r) 0 in
        LinkReady own (make_next third fourth w (act.Make s) 0) step }
    ensures binds_one { (z : Area) (v : View) (s : SlotId) (first second own : OwnPart) (m : ℕ)
        → alone second s ≡ alone own s → 0 < z.cells → v.cleared ≡ false → MayBind v
        → 0 < times s own.seat.owned → let text = payload_in own s ∷ [] in
        IsWord text → let w = make_next first second v (act.Make s) 0 in
        Walked z own w text m
        → BindReady z own w (act.TryReplace (Cell (z.first + on z text m)) None (Some s)) }
    ensures binds_two { (z : Area) (v : View) (r s : SlotId) (own after later : OwnPart)
        (step : PlainAct) (es : List Rope) (m : ℕ)
        → v.noted ≡ alone own s ∷ alone own r ∷ es → life_in later s ≡ life_in own s
        → 0 < z.cells → v.cleared ≡ false → MayBind v → 0 < times s later.seat.owned
        → let text = payload_in own s ∷ payload_in own r ∷ [] in
        IsWord text → let w = link_next own after v step 0 in
        Walked z later w text m
        → BindReady z later w (act.TryReplace (Cell (z.first + on z text m)) None (Some s)) }
    ensures binds_again { (z : Area) (v : View) (own later : OwnPart) (c found m : ℕ)
        (step : PlainAct) → (ready : BindReady z own v step)
        → life_in later ready.slot ≡ life_in own ready.slot
        → 0 < times ready.slot later.seat.owned → let w = sees c found v in
        Walked z later w ready.text m
        → BindReady z later w
        (act.TryReplace (Cell (z.first + on z ready.text m)) None (Some ready.slot)) }
{}

/// What a look found in a cell can be read on; what was read on can be read further. Where the seat has the slots that
/// it saw last, and their payloads are a whole text, it can note the record as found.
pub fn records_are_found_in_turn()
    ensures reads { (z : Area) (own after later : OwnPart) (v : View) (step next : PlainAct)
        (s : ℕ) → v.cleared ≡ false → LooksAt (Field (id s) 1) next
        → ReadReady later (look_next z own after v step (suc s)) next }
    ensures reads_on { (own after later : OwnPart) (v : View) (step next : PlainAct) (s : ℕ)
        → ReadReady own v step → LooksAt (Field (id s) 1) next
        → ReadReady later (read_next own after v step (suc s)) next }
    ensures finds { (own : OwnPart) (v : View) (e : Sight) (es : List Sight) (next : PlainAct)
        → v.seen ≡ e ∷ es → v.cleared ≡ false → IsCalm next → HasAll own e.slots
        → IsText (payloads own e.slots) → FindReady own v next }
{}
