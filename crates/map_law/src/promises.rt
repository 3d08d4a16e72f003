//! What the law gives a caller.
ghost use Rattle.std.specs.Prelude.{◌≡◌, ℕ, ◌<◌, ◌^◌, true, false, Bool, List, length, Option, Some, None};
ghost use Rattle.plain_protocol.specs.plain_state.declared.act.PlainAct.{PlainAct};
ghost use Rattle.plain_protocol.specs.plain_state.declared.slot.SlotId.{SlotId};
ghost use Rattle.plain_protocol.specs.plain_state.Lawful.{Lawful};
ghost use Rattle.plain_protocol.specs.plain_state.State.{Plain, slot_at};
ghost use Rattle.plain_protocol.specs.plain_state.Steps.{Does};
ghost use Rattle.plain_protocol.specs.Laws.{Meets};
ghost use Rattle.plain_protocol.specs.Owns.{is_alone, own_part};
ghost use Rattle.map_trees.specs.declared.change.Change.{Change};
ghost use Rattle.map_trees.specs.Trees.{Pair, Tree, pairs};
ghost use Rattle.map_trees.specs.Maps.{get, next, or_zero};
ghost use Rattle.map_trees.specs.Counting.{AllBumps, bumps};
ghost use Rattle.map_law.specs.Views.{Kid, View, fresh, view_at};
ghost use Rattle.map_law.specs.Nodes.{Inside, LiveNode, TreeAt, root};
ghost use Rattle.map_law.specs.Orders.{Orders};
ghost use Rattle.map_law.specs.Law.{MapLaw};
ghost use Rattle.map_law.specs.Patterns.{IsKid, Pattern, Spells};
ghost use Rattle.map_law.specs.Making.{SetReady};
ghost use Rattle.map_law.specs.Publishing.{PublishReady, PublishTells, publish_next};
ghost use Rattle.map_law.specs.Plans.{look, seek};
ghost use Rattle.map_law.specs.Promises.{HasTree, KnowsAll, Remains, Settled};

/// The root cell leads to one tree, which is a search tree and balanced; and each node that lives is the root of a
/// tree. A place leads to one tree at most.
pub fn the_root_has_a_balanced_tree()
    ensures tree { (c : ℕ) (p : Plain) (views : List View) → MapLaw c p views → HasTree c p }
    ensures nodes { (c : ℕ) (p : Plain) (views : List View) → MapLaw c p views → (s : SlotId)
        → LiveNode p s → (t : Tree) × TreeAt p (Some s) t }
    ensures one { (p : Plain) (w : Option SlotId) (t u : Tree) → TreeAt p w t → TreeAt p w u
        → t ≡ u }
{}

/// No node of the root's tree is raw for any seat, so the deed that sets fields sets none of a node there.
pub fn trees_are_not_written()
    ensures none { (c : ℕ) (p : Plain) (views : List View) → Lawful p → MapLaw c p views
        → (t : Tree) → TreeAt p (root p c) t → (s : SlotId) → Inside p (root p c) t s
        → fresh views s (slot_at p s).life ≡ 0 }
    ensures set { (c : ℕ) (p : Plain) (views : List View) (n i : ℕ) (s r : SlotId)
        (step : PlainAct) → Meets (MapLaw c) p views → n < length views
        → SetReady s i r (own_part p n) (view_at views n) step
        → (t : Tree) → TreeAt p (root p c) t → ¬ (Inside p (root p c) t s) }
{}

/// A deciding exchange changes the map by its one change, and answers what the key had before; a lost one changes
/// neither the map nor the entries.
pub fn an_exchange_is_one_change()
    ensures { (c : ℕ) (old new : Option SlotId) (key : ℕ) (change : Change) (answer : Option ℕ)
        (p q : Plain) (views : List View) (n : ℕ) (step : PlainAct) (found : ℕ)
        → Meets (MapLaw c) p views → n < length views → let v = view_at views n in
        PublishReady c old new key change answer (own_part p n) v step → Does p n step found q
        → PublishTells c key change answer p q n v (publish_next
        old new key change answer (own_part p n) (own_part q n) v step found) }
{}

/// The entries of all views have one order, in which each answer is that of a map of one thread at that point, and
/// which ends in the root's map, unless seat 0 has cleared the root cell. Once seat 0 is alone its view has all of
/// them; and where each of them adds one, a key's number in the map is how many entries are of it.
pub fn entries_have_one_order()
    ensures order { (c : ℕ) (p : Plain) (views : List View) → MapLaw c p views → (t : Tree)
        → TreeAt p (root p c) t → Orders views (pairs t) (view_at views 0).cleared }
    ensures alone { (c : ℕ) (p : Plain) (views : List View) → MapLaw c p views
        → is_alone p 0 ≡ true → (last : List Pair) (cleared : Bool)
        → (order : Orders views last cleared) → KnowsAll views order.all }
    ensures counts { (c : ℕ) (p : Plain) (views : List View) → MapLaw c p views
        → is_alone p 0 ≡ true → let root_view = view_at views 0 in
        root_view.cleared ≡ false → AllBumps root_view.entries
        → length root_view.entries < 2 ^ 64 → (t : Tree) → TreeAt p (root p c) t → (key : ℕ)
        → or_zero (get key (pairs t)) ≡ bumps key root_view.entries }
{}

/// What a seat's notes tell from the root on is the root's map, where the root cell holds a node that the seat has: the
/// value that a search finds is the key's, and the pair that it finds is the least one from the key on.
pub fn an_answer_is_the_maps()
    ensures get { (c : ℕ) (p : Plain) (views : List View) (n : ℕ) → Lawful p → MapLaw c p views
        → (k : Option Kid) (pat : Pattern) → IsKid (own_part p n) (root p c) k
        → Spells (view_at views n) k pat → (t : Tree) → TreeAt p (root p c) t
        → (key : ℕ) (x : Option ℕ) → look key pat ≡ Some x → get key (pairs t) ≡ x }
    ensures next { (c : ℕ) (p : Plain) (views : List View) (n : ℕ) → Lawful p → MapLaw c p views
        → (k : Option Kid) (pat : Pattern) → IsKid (own_part p n) (root p c) k
        → Spells (view_at views n) k pat → (t : Tree) → TreeAt p (root p c) t
        → (key : ℕ) (x : Option Pair) → seek key None pat ≡ Some x → next key (pairs t) ≡ x }
{}

/// Where nothing but the root cell holds a reference and all is settled, what lives are the nodes of the root's tree,
/// one for each key.
pub fn what_remains_is_the_tree()
    ensures { (c : ℕ) (p : Plain) (views : List View) → Lawful p → MapLaw c p views
        → Settled c p → (t : Tree) → TreeAt p (root p c) t → Remains c p t }
{}
