//! What the laws give a caller.
ghost use Rattle.std.specs.Prelude.{◌≡◌, ◌<◌, ◌↔◌, ℕ, false, true, List, Contains, Some, None};
ghost use Rattle.plain_protocol.specs.plain_state.declared.act.PlainAct.TheVariants as act;
ghost use Rattle.plain_protocol.specs.plain_state.declared.slot.SlotId.{SlotId};
ghost use Rattle.plain_protocol.specs.plain_state.declared.slot.Stage.TheVariants.{Live};
ghost use Rattle.plain_protocol.specs.plain_state.Lawful.{Lawful};
ghost use Rattle.plain_protocol.specs.plain_state.References.{strong_refs};
ghost use Rattle.plain_protocol.specs.plain_state.State.{Plain, slot_at, stage_at};
ghost use Rattle.plain_protocol.specs.plain_state.Steps.{Does};
ghost use Rattle.plain_protocol.specs.Calm.{IsMade};
ghost use Rattle.plain_protocol.specs.Owns.{is_alone};
ghost use Rattle.queue_law.specs.declared.view.Item.{Item};
ghost use Rattle.queue_law.specs.Chain.{Ends};
ghost use Rattle.queue_law.specs.Words.{id};
ghost use Rattle.watch_law.specs.Payloads.{IsDelivery, IsObserverOf};
ghost use Rattle.watch_law.specs.Views.{Address, View, view_at, IsAddressed, WasRead, last};
ghost use Rattle.watch_law.specs.Law.{Area, IsTo, WatchLaw, cell, owner};
ghost use Rattle.watch_law.specs.News.{IsOf, NewsLaw, NewsView, WasPushed, queues, watches};
ghost use Rattle.watch_law.specs.Promises.{IsGiven, LivesOn, SameObserver, SubscribedLast};

/// What the cell of an id holds is an observer with this id, alive or not. To the seat of the id, while it is there, it
/// is the one that this seat put there last; and the cell is null exactly where it put none there.
pub fn cells_hold_their_observers()
    ensures observer { (z : Area) (p : Plain) (views : List View) → WatchLaw z p views
        → (c : ℕ) (s : SlotId) → c < z.cells → cell z p c ≡ Some s
        → IsMade (stage_at p s) × IsObserverOf c (slot_at p s).payload }
    ensures last { (z : Area) (p : Plain) (views : List View) (n c : ℕ) → WatchLaw z p views
        → (view_at views n).here ≡ true → c < z.cells → owner z c ≡ n
        → (s : SlotId) → cell z p c ≡ Some s → SubscribedLast p (view_at views n) c s }
    ensures null { (z : Area) (p : Plain) (views : List View) (n c : ℕ) → WatchLaw z p views
        → (view_at views n).here ≡ true → c < z.cells → owner z c ≡ n
        → (cell z p c ≡ None) ↔ (last c (view_at views n).subscribed ≡ None) }
{}

/// What field 0 of a delivery holds that lives is an observer, and some view tells so. A delivery is given to one
/// observer at most in each of its lives, and is to that one as long as it lives.
pub fn deliveries_have_one_observer()
    ensures field { (z : Area) (p : Plain) (views : List View) → WatchLaw z p views
        → (d o : SlotId) → stage_at p d ≡ Live → IsDelivery (slot_at p d).payload
        → (slot_at p d).first ≡ Some o → IsGiven p views d o }
    ensures holds { (z : Area) (p : Plain) (views : List View) → WatchLaw z p views
        → (a : Address) → IsAddressed views a → LivesOn p a → IsTo p a }
    ensures one { (z : Area) (p : Plain) (views : List View) → WatchLaw z p views
        → (a b : Address) → IsAddressed views a → IsAddressed views b → a.slot ≡ b.slot
        → a.life ≡ b.life → a ≡ b }
{}

/// In any two states in which an addressed delivery lives, its field 0 holds the same observer, in the same life.
pub fn field_0_stays()
    ensures { (z : Area) (p q : Plain) (views after : List View) (a : Address)
        → WatchLaw z p views → WatchLaw z q after → IsAddressed views a → IsAddressed after a
        → LivesOn p a → LivesOn q a → SameObserver p q a }
{}

/// What a seat read in field 0 of a delivery stays so, as long as the delivery lives: so at the exchange of a pop too.
pub fn what_was_read_stays()
    ensures { (z : Area) (p : Plain) (views : List View) (a : Address) → WatchLaw z p views
        → WasRead views a → LivesOn p a → IsTo p a }
{}

/// The observer of a delivery that lives is alive, and has no zero mark.
pub fn observers_live()
    ensures { (p : Plain) (a : Address) → Lawful p → IsTo p a
        → (stage_at p a.observer ≡ Live) × ((slot_at p a.observer).marked ≡ false) }
{}

/// An add to what has a strong reference finds no zero mark, and where it finds one there is none.
pub fn an_add_tells_whether_it_ended()
    ensures up { (p q : Plain) (n found : ℕ) (s : SlotId) → Lawful p → 0 < strong_refs p s
        → Does p n (act.Add s) found q → found ≡ 0 }
    ensures dead { (p q : Plain) (n : ℕ) (s : SlotId) → Lawful p → Does p n (act.Add s) 1 q
        → strong_refs p s ≡ 0 }
{}

/// A delivery that was pushed has one observer, and as long as it lives its field 0 holds that one.
pub fn pushed_deliveries_have_observers()
    ensures has { (u : Ends) (z : Area) (p : Plain) (views : List NewsView) (x : Item)
        → NewsLaw u z p views → WasPushed (queues views) x → IsDelivery x.payload
        → (a : Address) × IsAddressed (watches views) a × IsOf a x }
    ensures one { (u : Ends) (z : Area) (p : Plain) (views : List NewsView) (x : Item)
        (a b : Address) → NewsLaw u z p views → IsAddressed (watches views) a
        → IsAddressed (watches views) b → IsOf a x → IsOf b x → a ≡ b }
    ensures lives { (u : Ends) (z : Area) (p : Plain) (views : List NewsView) (x : Item)
        (a : Address) → NewsLaw u z p views → IsAddressed (watches views) a → IsOf a x
        → stage_at p (id x.slot) ≡ Live → (slot_at p (id x.slot)).life ≡ x.life → IsTo p a }
{}

/// Once seat 0 is alone, its view tells to whom each delivery is that any seat addressed or read, or pushed.
pub fn the_root_knows_all()
    ensures addressed { (u : Ends) (z : Area) (p : Plain) (views : List NewsView) (a : Address)
        → NewsLaw u z p views → is_alone p 0 ≡ true → IsAddressed (watches views) a
        → Contains (view_at (watches views) 0).addressed a }
    ensures read { (u : Ends) (z : Area) (p : Plain) (views : List NewsView) (a : Address)
        → NewsLaw u z p views → is_alone p 0 ≡ true → WasRead (watches views) a
        → Contains (view_at (watches views) 0).addressed a }
    ensures pushed { (u : Ends) (z : Area) (p : Plain) (views : List NewsView) (x : Item)
        → NewsLaw u z p views → is_alone p 0 ≡ true → WasPushed (queues views) x
        → IsDelivery x.payload
        → (a : Address) × Contains (view_at (watches views) 0).addressed a × IsOf a x }
{}
