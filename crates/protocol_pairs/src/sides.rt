//! A protocol has itself as a part, and a pair has both of its sides.
ghost use Rattle.std.specs.Prelude.{refl};
ghost use Rattle.protocol_pairs.specs.Shares.{owned_of};
ghost use Rattle.protocol_pairs.specs.Spared.{IsSpared};
ghost use Rattle.protocol_pairs.specs.Sides.{left_frees, left_has, left_rest, right_frees, right_has, right_rest, self_has, self_rest};
ghost use Rattle.protocol_pairs.specs.Weights.{left_fits, right_fits};

use crate::pair::Pair;
use crate::part::{Left, Part, Right, Whole};
use plain_protocol::Protocol;

impl<Q: Protocol> Part<Q, Whole> for Q {
    ghost part = { λ it. it };

    ghost seen = { λ v. v };

    ghost with_seen = { λ v w. w };

    ghost free = { λ it own step. Unit {0} };

    ghost suits = { λ it v w. Unit {0} };

    ghost has = { λ it. self_has (Q.law it) };

    ghost keeps_rest = { λ it. self_rest (Q.law it) Q.gone };

    ghost reads = { λ v w. refl };

    ghost puts_back = { λ v. refl };

    ghost puts_over = { λ v w u. refl };

    ghost frees = { λ it own step within. tt };

    ghost fits = { λ it words owns fit. (fit, refl) };
}

impl<P: Protocol, Q: Protocol> Part<P, Left> for Pair<P, Q> {
    ghost part = { λ it. it.left };

    ghost seen = { λ v. v.0 };

    ghost with_seen = { λ v w. (w, v.1) };

    ghost free = { λ it. IsSpared (owned_of (Q.owns_cell it.right) (Q.owns_weak_cell it.right)
        (Q.owns_payload it.right) (Q.owns_tickets it.right)) };

    ghost suits = { λ it v w. Unit {0} };

    ghost has = { λ it. left_has (P.law it.left) (Q.law it.right) };

    ghost keeps_rest = { λ it. left_rest (P.law it.left) (Q.law it.right) P.gone Q.gone _
        (Q.foreign it.right) };

    ghost reads = { λ v w. refl };

    ghost puts_back = { λ v. refl };

    ghost puts_over = { λ v w u. refl };

    ghost frees = { λ it. left_frees it.left_own it.right_own it.one_draws };

    ghost fits = { λ it. left_fits P.Kind.fits Q.Kind.fits P.Kind.weight Q.Kind.weight
        it.left_own };
}

impl<P: Protocol, Q: Protocol> Part<Q, Right> for Pair<P, Q> {
    ghost part = { λ it. it.right };

    ghost seen = { λ v. v.1 };

    ghost with_seen = { λ v w. (v.0, w) };

    ghost free = { λ it. IsSpared (owned_of (P.owns_cell it.left) (P.owns_weak_cell it.left)
        (P.owns_payload it.left) (P.owns_tickets it.left)) };

    ghost suits = { λ it v w. Unit {0} };

    ghost has = { λ it. right_has (P.law it.left) (Q.law it.right) };

    ghost keeps_rest = { λ it. right_rest (P.law it.left) (Q.law it.right) P.gone Q.gone _
        (P.foreign it.left) };

    ghost reads = { λ v w. refl };

    ghost puts_back = { λ v. refl };

    ghost puts_over = { λ v w u. refl };

    ghost frees = { λ it. right_frees it.left_own it.right_own it.one_draws };

    ghost fits = { λ it. right_fits P.Kind.fits Q.Kind.fits P.Kind.weight Q.Kind.weight
        it.right_own };
}
