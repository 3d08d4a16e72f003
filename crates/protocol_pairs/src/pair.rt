//! Two protocols as one.
ghost use Rattle.std.specs.Prelude.{◌≡◌};
ghost use Rattle.protocol_pairs.specs.Shares.{IsLeft, IsRight, owned_of};

use crate::kind::PairKind;
use plain_protocol::Protocol;

/// Two protocols over one domain. The strong cells below `strong` and the weak cells below `weak` are the left part's,
/// and so is a payload whose word 0 is 0; all others are the right part's.
#[derive(Debug, Drop)]
pub struct Pair<P: Protocol, Q: Protocol> {
    pub left: P,
    pub right: Q,
    pub strong: u32,
    pub weak: u32,
    pub ghost left_own: { IsLeft strong weak (owned_of (P.owns_cell left) (P.owns_weak_cell left)
        (P.owns_payload left) (P.owns_tickets left)) },
    pub ghost right_own: { IsRight strong weak (owned_of (Q.owns_cell right)
        (Q.owns_weak_cell right) (Q.owns_payload right) (Q.owns_tickets right)) },
    pub ghost one_draws: { P.owns_tickets left → ¬ (Q.owns_tickets right) },
}

impl<P: Protocol, Q: Protocol> Pair<P, Q> {
    /// The pair of two protocols that own only what is theirs, and not both the tickets.
    pub fn new(p: P, q: Q, strong: u32, weak: u32) -> Pair<P, Q>
        requires left { IsLeft strong weak (owned_of (P.owns_cell p) (P.owns_weak_cell p)
            (P.owns_payload p) (P.owns_tickets p)) }
        requires right { IsRight strong weak (owned_of (Q.owns_cell q) (Q.owns_weak_cell q)
            (Q.owns_payload q) (Q.owns_tickets q)) }
        requires tickets { P.owns_tickets p → ¬ (Q.owns_tickets q) }
        ensures parts { (result.left ≡ p) × (result.right ≡ q) }
        ensures bounds { (result.strong ≡ strong) × (result.weak ≡ weak) }
    {
        Pair {
            left: p,
            right: q,
            strong,
            weak,
        }
    }
}

impl<P: Protocol, Q: Protocol> Protocol for Pair<P, Q> {
    ghost use Rattle.std.specs.Prelude.{◌⊎◌};
    ghost use Rattle.protocol_pairs.specs.Parts.{Both};
    ghost use Rattle.protocol_pairs.specs.Both.{both_calm, both_foreign, both_leave, both_start};

    type View = (P::View, Q::View);

    type Kind = PairKind<P::Kind, Q::Kind>;

    ghost first = { λ it n. (P.first it.left n, Q.first it.right n) };

    ghost law = { λ it. Both (P.law it.left) (Q.law it.right) };

    ghost joined = { λ it v w. (P.joined it.left v.0 w.0, Q.joined it.right v.1 w.1) };

    ghost gone = { (P.gone, Q.gone) };

    ghost owns_cell = { λ it i. P.owns_cell it.left i ⊎ Q.owns_cell it.right i };

    ghost owns_weak_cell = { λ it i. P.owns_weak_cell it.left i ⊎ Q.owns_weak_cell it.right i };

    ghost owns_payload = { λ it words. P.owns_payload it.left words
        ⊎ Q.owns_payload it.right words };

    ghost owns_tickets = { λ it. P.owns_tickets it.left ⊎ Q.owns_tickets it.right };

    ghost start = { λ it. both_start (P.law it.left) (Q.law it.right) (P.first it.left)
        (Q.first it.right) (P.start it.left) (Q.start it.right) };

    ghost calm = { λ it. both_calm (P.law it.left) (Q.law it.right) (P.calm it.left)
        (Q.calm it.right) };

    ghost leave = { λ it. both_leave (P.law it.left) (Q.law it.right) (P.joined it.left)
        (Q.joined it.right) P.gone Q.gone (P.leave it.left) (Q.leave it.right) };

    ghost foreign = { λ it. both_foreign (P.law it.left) (Q.law it.right)
        (owned_of (P.owns_cell it.left) (P.owns_weak_cell it.left) (P.owns_payload it.left)
        (P.owns_tickets it.left))
        (owned_of (Q.owns_cell it.right) (Q.owns_weak_cell it.right) (Q.owns_payload it.right)
        (Q.owns_tickets it.right)) (P.foreign it.left) (Q.foreign it.right) };
}
