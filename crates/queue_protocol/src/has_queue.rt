//! Protocols that have a queue as a part.
ghost use Rattle.queue_law.specs.declared.view.Item.{Item};
ghost use Rattle.queue_protocol.specs.Pushable.{AcceptsKept, AcceptsPush, StaysPushable};

use crate::law::QueueLaw;
use protocol_pairs::{Left, Pair, Part, Protocol, Whole};

/// A protocol that has a queue as a part of it, or is one, and which items may be pushed. `S` says which part of it the
/// queue is, and is inferred at a call.
pub trait HasQueue<S>: Part<QueueLaw, S> {
    /// The seat may push the item, by what its view has beside the queue's part.
    ghost may_push: { Self → Self.View → Item → Type 0 };

    /// It still may, whatever it did with the queue meanwhile.
    ghost stays: { StaysPushable may_push Self.with_seen };

    /// The rest minds no view of the queue that has pushed nothing more.
    ghost accepts: { AcceptsKept Self.seen Self.suits };

    /// Nor one that has pushed an item more that may be pushed.
    ghost accepts_push: { AcceptsPush may_push Self.seen Self.suits };
}

impl HasQueue<Whole> for QueueLaw {
    ghost may_push = { λ it v item. Unit {0} };

    ghost stays = { λ it v w item may. tt };

    ghost accepts = { λ it v w kept. tt };

    ghost accepts_push = { λ it v w item may pushed. tt };
}

impl<Q: Protocol> HasQueue<Left> for Pair<QueueLaw, Q> {
    ghost may_push = { λ it v item. Unit {0} };

    ghost stays = { λ it v w item may. tt };

    ghost accepts = { λ it v w kept. tt };

    ghost accepts_push = { λ it v w item may pushed. tt };
}
