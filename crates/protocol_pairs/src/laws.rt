//! What a pair and its parts are, in a caller's words.
ghost use Rattle.std.specs.Prelude.{◌≡◌, ◌↔◌, ◌⊎◌, ℕ, List};
ghost use Rattle.plain_protocol.specs.plain_state.declared.act.PlainAct.{PlainAct};
ghost use Rattle.plain_protocol.specs.plain_state.State.{Plain};
ghost use Rattle.plain_protocol.specs.plain_state.Lawful.{Lawful};
ghost use Rattle.plain_protocol.specs.plain_state.Steps.{Does};
ghost use Rattle.plain_protocol.specs.Acts.{IsCalm, IsForeign};
ghost use Rattle.plain_protocol.specs.Owns.{OwnPart, own_part};
ghost use Rattle.protocol_pairs.specs.Shares.{IsLeftPayload, owned_of};
ghost use Rattle.protocol_pairs.specs.Spared.{IsSpared, IsWithin};
ghost use Rattle.protocol_pairs.specs.Untouched.{IsUntouched};
ghost use Rattle.protocol_pairs.specs.Parts.{Both, Accepts, FitsWhole};

use crate::in_part::InPart;
use crate::kind::PairKind;
use crate::pair::Pair;
use crate::part::{Left, Part, Right};
use plain_protocol::{Deed, PayloadKind, Protocol};

/// A step that a seat sees to be foreign to a protocol, by the payloads of the slots that it has, is so in the plain
/// state. The call does nothing.
pub fn spared_steps_are_foreign<P: Protocol>()
    ensures { (of : P) (p : Plain) (n : ℕ) (step : PlainAct)
        → IsSpared (owned_of (P.owns_cell of) (P.owns_weak_cell of) (P.owns_payload of)
        (P.owns_tickets of)) (own_part p n) step
        → IsForeign (owned_of (P.owns_cell of) (P.owns_weak_cell of) (P.owns_payload of)
        (P.owns_tickets of)) p step }
{}

/// A payload fits the kind of a pair, and weighs there, as in the part whose it is. The call does nothing.
pub fn each_payload_is_one_parts<K: PayloadKind, L: PayloadKind>()
    ensures left { (words : List ℕ) → IsLeftPayload words
        → (⟦<PairKind<K, L> as PayloadKind>⟧.fits words ↔ K.fits words)
        × (⟦<PairKind<K, L> as PayloadKind>⟧.weight words ≡ K.weight words) }
    ensures right { (words : List ℕ) → ¬ (IsLeftPayload words)
        → (⟦<PairKind<K, L> as PayloadKind>⟧.fits words ↔ L.fits words)
        × (⟦<PairKind<K, L> as PayloadKind>⟧.weight words ≡ L.weight words) }
{}

/// The law of a pair is both laws, each over its own views, and it owns what its parts own. The call does nothing.
pub fn a_pair_is_both<P: Protocol, Q: Protocol>(pair: &Pair<P, Q>)
    ensures law { (p : Plain) (views : List (P.View × Q.View))
        → ⟦<Pair<P, Q> as Protocol>⟧.law pair.now p views
        ↔ Both (P.law pair.now.left) (Q.law pair.now.right) p views }
    ensures cells { (i : ℕ) → ⟦<Pair<P, Q> as Protocol>⟧.owns_cell pair.now i
        ↔ (P.owns_cell pair.now.left i ⊎ Q.owns_cell pair.now.right i) }
    ensures weak_cells { (i : ℕ) → ⟦<Pair<P, Q> as Protocol>⟧.owns_weak_cell pair.now i
        ↔ (P.owns_weak_cell pair.now.left i ⊎ Q.owns_weak_cell pair.now.right i) }
    ensures payloads { (words : List ℕ) → ⟦<Pair<P, Q> as Protocol>⟧.owns_payload pair.now words
        ↔ (P.owns_payload pair.now.left words ⊎ Q.owns_payload pair.now.right words) }
    ensures tickets { ⟦<Pair<P, Q> as Protocol>⟧.owns_tickets pair.now
        ↔ (P.owns_tickets pair.now.left ⊎ Q.owns_tickets pair.now.right) }
{}

/// A deed of the left part is ready for a step of the pair where it is for the part, if the step is foreign to the
/// right part. It leaves the right part's view, and tells of the step what it tells of the part. The call does nothing.
pub fn a_left_deed_leaves_the_right<P: Protocol, Q: Protocol, D: Deed<P>>(
    pair: &Pair<P, Q>,
    deed: D,
    lifted: &InPart<P, Left, D>,
)
    requires { lifted.now.deed ≡ deed }
    ensures ready { (own : OwnPart) (v : P.View × Q.View) (step : PlainAct)
        → ⟦<InPart<P, Left, D> as Deed<Pair<P, Q>>>⟧.ready lifted.now pair.now own v step
        ↔ (D.ready deed pair.now.left own v.0 step × IsSpared (owned_of
        (Q.owns_cell pair.now.right) (Q.owns_weak_cell pair.now.right)
        (Q.owns_payload pair.now.right) (Q.owns_tickets pair.now.right)) own step) }
    ensures next { (own after : OwnPart) (v : P.View × Q.View) (step : PlainAct) (found : ℕ)
        → ⟦<InPart<P, Left, D> as Deed<Pair<P, Q>>>⟧.next lifted.now pair.now own after v step found
        ≡ (D.next deed pair.now.left own after v.0 step found, v.1) }
    ensures allows { (p q : Plain) (n : ℕ) (v w : P.View × Q.View)
        → ⟦<InPart<P, Left, D> as Deed<Pair<P, Q>>>⟧.allows lifted.now pair.now p q n v w
        ↔ D.allows deed pair.now.left p q n v.0 w.0 }
{}

/// The same of a deed of the right part. The call does nothing.
pub fn a_right_deed_leaves_the_left<P: Protocol, Q: Protocol, D: Deed<Q>>(
    pair: &Pair<P, Q>,
    deed: D,
    lifted: &InPart<Q, Right, D>,
)
    requires { lifted.now.deed ≡ deed }
    ensures ready { (own : OwnPart) (v : P.View × Q.View) (step : PlainAct)
        → ⟦<InPart<Q, Right, D> as Deed<Pair<P, Q>>>⟧.ready lifted.now pair.now own v step
        ↔ (D.ready deed pair.now.right own v.1 step × IsSpared (owned_of
        (P.owns_cell pair.now.left) (P.owns_weak_cell pair.now.left)
        (P.owns_payload pair.now.left) (P.owns_tickets pair.now.left)) own step) }
    ensures next { (own after : OwnPart) (v : P.View × Q.View) (step : PlainAct) (found : ℕ)
        → ⟦<InPart<Q, Right, D> as Deed<Pair<P, Q>>>⟧.next lifted.now pair.now own after v step
        found ≡ (v.0, D.next deed pair.now.right own after v.1 step found) }
    ensures allows { (p q : Plain) (n : ℕ) (v w : P.View × Q.View)
        → ⟦<InPart<Q, Right, D> as Deed<Pair<P, Q>>>⟧.allows lifted.now pair.now p q n v w
        ↔ D.allows deed pair.now.right p q n v.1 w.1 }
{}

/// A deed of a part is ready for the whole where it is for the part, if its step writes nothing but what the part owns
/// and the rest accepts each next view. The call does nothing.
pub fn a_part_may_use_its_own<Q: Protocol, S, P: Part<Q, S>, D: Deed<Q>>(
    whole: &P,
    deed: D,
    lifted: &InPart<Q, S, D>,
)
    requires { lifted.now.deed ≡ deed }
    ensures { (own : OwnPart) (v : P.View) (step : PlainAct)
        → D.ready deed (P.part whole.now) own (P.seen v) step
        → IsWithin (owned_of (Q.owns_cell (P.part whole.now)) (Q.owns_weak_cell (P.part whole.now))
        (Q.owns_payload (P.part whole.now)) (Q.owns_tickets (P.part whole.now))) own step
        → Accepts (P.suits whole.now) (D.next deed (P.part whole.now)) P.seen own v step
        → ⟦<InPart<Q, S, D> as Deed<P>>⟧.ready lifted.now whole.now own v step }
{}

/// The part's own payloads that fit its kind fit the kind of the whole, and weigh the same. The call does nothing.
pub fn a_part_may_make_its_own<Q: Protocol, S, P: Part<Q, S>>(whole: &P)
    ensures { FitsWhole (Q.owns_payload (P.part whole.now)) Q.Kind.fits P.Kind.fits
        Q.Kind.weight P.Kind.weight }
{}

/// What a protocol may rest on where it proves that foreign steps keep its law: they leave its cells and its tickets,
/// the life and the payload of all that lives, and the fields of its own live objects; and nothing of its own comes to
/// life. Calm steps are foreign to whatever a protocol owns. The call does nothing.
pub fn foreign_steps_leave<P: Protocol>()
    ensures leave { (of : P) (p q : Plain) (n : ℕ) (step : PlainAct) (found : ℕ) → Lawful p
        → IsForeign (owned_of (P.owns_cell of) (P.owns_weak_cell of) (P.owns_payload of)
        (P.owns_tickets of)) p step → Does p n step found q
        → IsUntouched (owned_of (P.owns_cell of) (P.owns_weak_cell of) (P.owns_payload of)
        (P.owns_tickets of)) p q }
    ensures calm { (of : P) (p : Plain) (step : PlainAct) → IsCalm step
        → IsForeign (owned_of (P.owns_cell of) (P.owns_weak_cell of) (P.owns_payload of)
        (P.owns_tickets of)) p step }
{}
