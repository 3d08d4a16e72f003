//! What steps leave of the laws.
ghost use Rattle.std.specs.Prelude.{◌≡◌, ◌++◌, ℕ, [], ◌∷◌, Contains};
ghost use Rattle.plain_protocol.specs.plain_state.declared.act.PlainAct.{PlainAct};
ghost use Rattle.plain_protocol.specs.plain_state.declared.slot.SlotId.{SlotId};
ghost use Rattle.plain_protocol.specs.Laws.{Starts, KeptByCalm, KeptByForeign, KeptByLeave};
ghost use Rattle.plain_protocol.specs.Owns.{OwnPart};
ghost use Rattle.protocol_pairs.specs.Parts.{KeepsRest};
ghost use Rattle.protocol_pairs.specs.Spared.{IsSpared};
ghost use Rattle.queue_law.specs.declared.view.Item.{Item};
ghost use Rattle.queue_law.specs.declared.view.Taken.{Taken};
ghost use Rattle.queue_law.specs.declared.view.View.{View as QueueView};
ghost use Rattle.queue_law.specs.Chain.{Ends};
ghost use Rattle.queue_law.specs.Law.{WholeLaw};
ghost use Rattle.queue_law.specs.Owned as queue_owned;
ghost use Rattle.queue_law.specs.Words.{id};
ghost use Rattle.watch_law.specs.Payloads.{told};
ghost use Rattle.watch_law.specs.Views.{Address, View, no_view};
ghost use Rattle.watch_law.specs.Views as watch;
ghost use Rattle.watch_law.specs.Law.{Area, WatchLaw};
ghost use Rattle.watch_law.specs.Owned as watch_owned;
ghost use Rattle.watch_law.specs.Steps.{life_in, payload_in};
ghost use Rattle.watch_law.specs.Making.{delivery_next, observer_next};
ghost use Rattle.watch_law.specs.Writes.{address_next, subscribe_next};
ghost use Rattle.watch_law.specs.Lessons.{find_next, read_next};
ghost use Rattle.watch_law.specs.News.{NewsLaw, NewsView, first_view, gone, joined, owns};
ghost use Rattle.watch_law.specs.Pushes.{KeepsAll, MayPush, PushesAddressed};

/// The law of observers holds of the state with nothing in it and the first views. Calm steps keep it, and so do steps
/// that leave alone what observers and deliveries own, and a seat that leaves, whose view joins that of seat 0.
pub fn others_keep_the_law()
    ensures start { (z : Area) → Starts (WatchLaw z) watch.first_view }
    ensures calm { (z : Area) → KeptByCalm (WatchLaw z) }
    ensures foreign { (z : Area) → KeptByForeign (WatchLaw z) (watch_owned.owns z) }
    ensures leave { (z : Area) → KeptByLeave (WatchLaw z) watch.joined no_view }
{}

/// So it is with the joint law, where steps are foreign that leave alone what the queue owns too.
pub fn others_keep_the_joint_law()
    ensures start { (u : Ends) (z : Area) → Starts (NewsLaw u z) (first_view u) }
    ensures calm { (u : Ends) (z : Area) → KeptByCalm (NewsLaw u z) }
    ensures foreign { (u : Ends) (z : Area) → KeptByForeign (NewsLaw u z) (owns u z) }
    ensures leave { (u : Ends) (z : Area) → KeptByLeave (NewsLaw u z) joined gone }
{}

/// A step that keeps the queue's law and spares observers and deliveries keeps the joint law, where the seat has pushed
/// nothing but what it may push. A step that keeps the law of observers and spares the queue keeps it, where the seat
/// keeps each address.
pub fn each_part_keeps_the_law()
    ensures queue { (u : Ends) (z : Area)
        → KeepsRest (NewsLaw u z) (WholeLaw u) (λ v. v.0) gone (λ v w. (w, v.1))
        (IsSpared (watch_owned.owns z)) PushesAddressed }
    ensures observers { (u : Ends) (z : Area)
        → KeepsRest (NewsLaw u z) (WatchLaw z) (λ v. v.1) gone (λ v w. (v.0, w))
        (IsSpared (queue_owned.owns u)) KeepsAll }
{}

/// A next view of the queue suits that has pushed nothing more, or one item more that the seat may push. A delivery may
/// be pushed once it was addressed; and it stays so whatever the seat does with the queue, and while it keeps each
/// address.
pub fn what_may_be_pushed()
    ensures nothing { (v : NewsView) (w : QueueView) → w.pushed ≡ v.0.pushed
        → PushesAddressed v w }
    ensures one { (v : NewsView) (w : QueueView) (e : Taken) → w.pushed ≡ v.0.pushed ++ e ∷ []
        → MayPush v e.item → PushesAddressed v w }
    ensures addressed { (own after : OwnPart) (v : NewsView) (d o : SlotId) (step : PlainAct)
        (found : ℕ) (x : Item) → d ≡ id x.slot → life_in own d ≡ x.life
        → told (payload_in own d) ≡ told x.payload
        → MayPush (v.0, address_next d o own after v.1 step found) x }
    ensures kept { (v : NewsView) (w : QueueView) (x : Item) → MayPush v x
        → MayPush (w, v.1) x }
    ensures stays { (v : NewsView) (w : View) (x : Item) → KeepsAll v w → MayPush v x
        → MayPush (v.0, w) x }
{}

/// No deed on observers and deliveries loses an address, and where a seat leaves seat 0's view has those of both.
pub fn deeds_keep_addresses()
    ensures observer { (v : NewsView) (own after : OwnPart) (step : PlainAct) (found : ℕ)
        → KeepsAll v (observer_next own after v.1 step found) }
    ensures delivery { (v : NewsView) (own after : OwnPart) (step : PlainAct) (found : ℕ)
        → KeepsAll v (delivery_next own after v.1 step found) }
    ensures subscribe { (v : NewsView) (own after : OwnPart) (step : PlainAct) (found c : ℕ)
        (s : SlotId) → KeepsAll v (subscribe_next c s own after v.1 step found) }
    ensures address { (v : NewsView) (own after : OwnPart) (step : PlainAct) (found : ℕ)
        (d o : SlotId) → KeepsAll v (address_next d o own after v.1 step found) }
    ensures find { (v : NewsView) (own after : OwnPart) (step : PlainAct) (found : ℕ)
        → KeepsAll v (find_next own after v.1 step found) }
    ensures read { (v : NewsView) (own after : OwnPart) (step : PlainAct) (found : ℕ)
        → KeepsAll v (read_next own after v.1 step found) }
    ensures root { (v w : NewsView) → KeepsAll v (joined v w).1 }
    ensures leaver { (v w : NewsView) (a : Address) → Contains w.1.addressed a
        → Contains (joined v w).1.addressed a }
{}
