//! What a call does with patterns, and how a seat's notes spell them from turn to turn.
ghost use Rattle.plain_protocol.specs.plain_state.declared.act.PlainAct.{PlainAct};
ghost use Rattle.plain_protocol.specs.Owns.{Object, OwnPart};
ghost use Rattle.std.specs.Prelude.{◌≡◌, ◌≢◌, ◌+◌, true, ℕ, Option, Some, None};
ghost use Rattle.plain_protocol.specs.plain_state.declared.slot.SlotId.{SlotId};
ghost use Rattle.map_trees.specs.Trees.{Pair, Shaped, Tree, height, pairs};
ghost use Rattle.map_trees.specs.Maps.{get, next, or_else};
ghost use Rattle.map_trees.specs.Balance.{altered, join};
ghost use Rattle.map_trees.specs.declared.change.Change.{Change};
ghost use Rattle.map_law.specs.Views.{In, Kid, Led, Raw, View, kid};
ghost use Rattle.map_law.specs.Nodes.{words};
ghost use Rattle.map_law.specs.Patterns.{Fits, HasObject, IsChange, Pattern, Spells, branch, filled};
ghost use Rattle.map_law.specs.Making.{HasKid, Known, SetReady, frozen, make_next, set_next};
ghost use Rattle.map_law.specs.Publishing.{PublishReady};
ghost use Rattle.map_law.specs.Example.{both, linked, new_leaf, new_root, old_root, own};
ghost use Rattle.map_trees.specs.declared.change.Change.TheVariants as change;
ghost use Rattle.plain_protocol.specs.plain_state.declared.act.EventPlace.TheVariants.{Cell, Field};
ghost use Rattle.plain_protocol.specs.plain_state.declared.act.PlainAct.TheVariants as act;
ghost use Rattle.map_law.specs.Plans.{height_of, joins, look, seek};

/// What is found in a pattern, or made of two, is what is found in the tree, or made of the two, whatever stands in the
/// holes. So where a pattern is always filled to the altered tree of another one, it is that one with the change.
pub fn patterns_are_their_trees()
    ensures height { (trees : SlotId → Tree) (pat : Pattern) → Fits trees pat
        → height (filled trees pat) ≡ height_of pat }
    ensures look { (trees : SlotId → Tree) (k : ℕ) (pat : Pattern) (x : Option ℕ)
        → look k pat ≡ Some x → Shaped (filled trees pat)
        → get k (pairs (filled trees pat)) ≡ x }
    ensures seek { (trees : SlotId → Tree) (k : ℕ) (pat : Pattern) (best x : Option Pair)
        → seek k best pat ≡ Some x → Shaped (filled trees pat)
        → or_else (next k (pairs (filled trees pat))) best ≡ x }
    ensures joins { (trees : SlotId → Tree) (k v : ℕ) (l r pat : Pattern) → Fits trees l
        → Fits trees r → joins k v l r ≡ Some pat
        → (filled trees pat ≡ join k v (filled trees l) (filled trees r)) × Fits trees pat }
    ensures change { (old new : Pattern) (key : ℕ) (change : Change) (answer : Option ℕ)
        → look key old ≡ Some answer → ((trees : SlotId → Tree) → Fits trees old
        → filled trees new ≡ altered key change (filled trees old))
        → IsChange old new key change answer }
{}

/// What a seat's notes spell they go on to spell as they grow; and once a node of its own is frozen, they spell a node
/// over what its two fields spell.
pub fn notes_go_on_to_spell()
    ensures more { (v w : View) → ((e : Led) → In e v.led → In e w.led) → (k : Option Kid)
        (pat : Pattern) → Spells v k pat → Spells w k pat }
    ensures frozen { (s : SlotId) (l : ℕ) (v : View) (e : Raw) (key value h : ℕ) (a b : Pattern)
        → In e v.raw → e.slot ≡ s → e.life ≡ l → Spells v e.first a → Spells v e.second b
        → Spells (frozen s l v) (Some (kid s l (words key value h))) (branch key value h a b) }
{}

/// The deeds that make a node follow one another. Once a node was made, a field of it can be set to a node that the
/// seat knows; and once one field was set, so can the other. What was made or set is known.
pub fn nodes_are_made_in_turn()
    ensures made { (s : SlotId) (before after : OwnPart) (v : View) (a : Object)
        (step : PlainAct) (found : ℕ) → HasObject before s a
        → Known (make_next s before after v step found) s (a.life + 1) }
    ensures set { (i : ℕ) (r : SlotId) (own after : OwnPart) (v : View) (k : Object)
        (step : PlainAct) (found : ℕ) → HasObject own r k
        → Known (set_next i r own after v step found) r k.life }
    ensures sets { (s r : SlotId) (i : ℕ) (own before after : OwnPart) (v : View)
        (a o : Object) (step : PlainAct) (found : ℕ) → v.here ≡ true → HasObject before s a
        → HasObject own s o → o.life ≡ a.life + 1 → HasKid s i r own v
        → SetReady s i r own (make_next s before after v step found)
        (act.Replace (Field s i) (Some r)) }
    ensures again { (s r t : SlotId) (i j : ℕ) (own after later : OwnPart) (v : View)
        (o : Object) (step : PlainAct) (found : ℕ) → (ready : SetReady s i r own v step)
        → s ≢ r → s ≢ t → HasObject later s o → o.life ≡ ready.first.life
        → let w = set_next i r own after v step found in HasKid s j t later w
        → SetReady s j t later w (act.Replace (Field s j) (Some t)) }
{}

/// What the deeds ask for can be met: after a seat has read a map of one node, and made a leaf and a copy of the root,
/// it may set the copy's field to the leaf, and then publish the copy as the map with the leaf's key.
pub fn a_put_can_be_published()
    ensures set { SetReady new_root 1 new_leaf (own 5) both
        (act.Replace (Field new_root 1) (Some new_leaf)) }
    ensures publish { PublishReady 0 (Some old_root) (Some new_root) 9 (change.Put 5) None
        (own 5) linked (act.TryReplace (Cell 0) (Some old_root) (Some new_root)) }
{}
