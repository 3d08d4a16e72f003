//! The deed of a step that is foreign to a protocol.
ghost use Rattle.std.specs.Prelude.{◌≡◌};
ghost use Rattle.protocol_pairs.specs.Apart.{spares_keep};
ghost use Rattle.protocol_pairs.specs.Shares.{owned_of};
ghost use Rattle.protocol_pairs.specs.Spared.{IsSpared};

use plain_protocol::{Deed, Protocol};

/// The deed that leaves the view as it is, at a step that leaves what the protocol owns, as the seat itself can tell:
/// to make an object of a payload that isn't owned, or to change a place that isn't.
#[derive(Clone, Copy, Debug, Drop)]
pub struct Spares;

impl<P: Protocol> Deed<P> for Spares {
    ghost ready = { λ it of own v act. IsSpared (owned_of (P.owns_cell of) (P.owns_weak_cell of)
        (P.owns_payload of) (P.owns_tickets of)) own act };

    ghost next = { λ it of own after v act found. v };

    ghost allows = { λ it of p q n v w. w ≡ v };

    ghost keeps = { λ it of. spares_keep (P.law of) P.gone (owned_of (P.owns_cell of)
        (P.owns_weak_cell of) (P.owns_payload of) (P.owns_tickets of)) (P.foreign of) };
}
