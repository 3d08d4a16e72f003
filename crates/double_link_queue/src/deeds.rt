//! The deed of a look at field 0 of the node before one that was seen: that of the protocol, which tells besides that
//! this slot is a node, where the seat holds it.
ghost use Rattle.linked_queue.specs.queue_law.Chain.{ends};
ghost use Rattle.linked_queue.specs.queue_law.Lessons.{set_next};
ghost use Rattle.double_link_queue.specs.Before.{BeforeTells, HeldSetReady, held_set_keeps};

use linked_queue::QueueLaw;
use weak_part_calls::Deed;

/// Whether field 0 of the node before is set, where there is nothing to help then.
#[derive(Clone, Copy, Debug, Drop)]
pub struct SeeSet;

impl Deed<QueueLaw> for SeeSet {
    ghost ready = { λ it of. HeldSetReady (ends of.form of.head of.tail) };

    ghost next = { λ it of. set_next };

    ghost allows = { λ it of. BeforeTells };

    ghost keeps = { λ it of. held_set_keeps (ends of.form of.head of.tail) of.apart };
}
