//! Deeds of a part.
ghost use Rattle.std.specs.Prelude.{◌≡◌};
ghost use Rattle.protocol_pairs.specs.Parts.{Accepts};
ghost use Rattle.protocol_pairs.specs.Sides.{part_keeps};

use crate::part::Part;
use plain_protocol::{Deed, Protocol};
use std::marker::PhantomData;

/// A deed of `Q` as a deed of every protocol that has `Q` as its part `S`. It is ready where the deed is, and where the
/// rest minds neither the step nor the next view; it leaves what else the view has.
#[derive(Drop)]
#[derive_where(Clone, Copy; D)]
pub struct InPart<Q, S, D> {
    pub deed: D,
    of: PhantomData<Q>,
    side: PhantomData<S>,
}

impl<Q: Protocol, S, D: Deed<Q>> InPart<Q, S, D> {
    /// The deed, as one of the part's.
    pub fn new(deed: D) -> InPart<Q, S, D>
        ensures { result.deed ≡ deed }
    {
        InPart {
            deed,
            of: PhantomData,
            side: PhantomData,
        }
    }
}

impl<Q: Protocol, S, P: Part<Q, S>, D: Deed<Q>> Deed<P> for InPart<Q, S, D> {
    ghost ready = { λ it of own v act. D.ready it.deed (P.part of) own (P.seen v) act
        × P.free of own act × Accepts (P.suits of) (D.next it.deed (P.part of)) P.seen own v act };

    ghost next = { λ it of own after v act found. P.with_seen v
        (D.next it.deed (P.part of) own after (P.seen v) act found) };

    ghost allows = { λ it of p q n v w. D.allows it.deed (P.part of) p q n (P.seen v) (P.seen w) };

    ghost keeps = { λ it of. part_keeps (P.law of) (Q.law (P.part of)) P.seen P.with_seen P.gone
        Q.gone (P.free of) (P.suits of) (P.has of) (P.keeps_rest of) P.reads
        (D.ready it.deed (P.part of)) (D.next it.deed (P.part of)) (D.allows it.deed (P.part of))
        (D.keeps it.deed (P.part of)) };
}
