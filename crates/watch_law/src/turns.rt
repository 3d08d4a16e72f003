//! How the deeds of a call follow one another.
ghost use Rattle.std.specs.Prelude.{◌≡◌, ◌≢◌, ◌+◌, ◌++◌, ◌<◌, ℕ, suc, [], ◌∷◌, Some};
ghost use Rattle.plain_protocol.specs.plain_state.declared.act.EventPlace.TheVariants.{Field};
ghost use Rattle.plain_protocol.specs.plain_state.declared.act.PlainAct.{PlainAct};
ghost use Rattle.plain_protocol.specs.plain_state.declared.act.PlainAct.TheVariants as act;
ghost use Rattle.plain_protocol.specs.plain_state.declared.slot.SlotId.{SlotId};
ghost use Rattle.plain_protocol.specs.plain_state.Places.{HoldsStrongly};
ghost use Rattle.plain_protocol.specs.Owns.{Object, OwnPart};
ghost use Rattle.protocol_pairs.specs.Parts.{Accepts};
ghost use Rattle.protocol_pairs.specs.Spared.{IsSpared};
ghost use Rattle.queue_law.specs.Chain.{Ends};
ghost use Rattle.queue_law.specs.Owned.{owns};
ghost use Rattle.queue_law.specs.Words.{id};
ghost use Rattle.watch_law.specs.Payloads.{IsDelivery, IsObserver};
ghost use Rattle.watch_law.specs.Views.{View};
ghost use Rattle.watch_law.specs.Steps.{LooksAt, address_by, life_in, payload_in};
ghost use Rattle.watch_law.specs.Making.{delivery_next};
ghost use Rattle.watch_law.specs.Writes.{AddressReady};
ghost use Rattle.watch_law.specs.Lessons.{ReadReady, read_next};
ghost use Rattle.watch_law.specs.News.{NewsView};
ghost use Rattle.watch_law.specs.Pushes.{KeepsAll};

/// A delivery that was made can be given an observer that the seat has, in the life that began when it was made.
pub fn deliveries_are_sent_in_turn()
    ensures { (own after later : OwnPart) (v : View) (d o : SlotId) (step : PlainAct) (found : ℕ)
        → life_in later d ≡ life_in own d + 1 → IsObserver (payload_in later o)
        → step ≡ act.Replace (Field d 0) (Some o)
        → AddressReady d o later (delivery_next own after v (act.Make d) found) step }
{}

/// A look at field 0 of a delivery that found an observer, which the seat has afterwards, is noted with all that the
/// seat knows of both.
pub fn what_is_found_is_noted()
    ensures { (own after : OwnPart) (v : View) (d : SlotId) (step : PlainAct) (o : ℕ) (x : Object)
        → LooksAt (Field d 0) step → IsDelivery (payload_in own d)
        → after.objects (id o) ≡ Some x
        → (read_next own after v step (suc o)).read
        ≡ v.read ++ address_by own d (Some x) (id o) ∷ [] }
{}

/// A pop that looks at field 0 of the item that it found can note to whom it is: the seat holds the item strongly then,
/// whichever slot it is, and neither the queue nor any address minds.
pub fn a_pop_may_read_its_item()
    ensures { (u : Ends) (own : OwnPart) (v : NewsView) (d : SlotId) (step : PlainAct)
        → LooksAt (Field d 0) step → HoldsStrongly own.seat d
        → ReadReady own v.1 step × IsSpared (owns u) own step
        × Accepts KeepsAll read_next (λ w. w.1) own v step }
{}
