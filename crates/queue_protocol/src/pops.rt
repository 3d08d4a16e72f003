//! The deeds of a pop.
ghost use Rattle.queue_law.specs.Chain.{ends};
ghost use Rattle.queue_law.specs.Pops.{EmptyReady, TakeReady, empty_next, take_next};
ghost use Rattle.queue_law.specs.Lessons.{TellsNothing};
ghost use Rattle.queue_law.proofs.Deeds as deeds;

use crate::law::QueueLaw;
use protocol_pairs::Deed;

/// The head cell gets the node after the one that it held, and the seat has popped that node's item.
#[derive(Clone, Copy, Drop)]
pub struct TakeItem;

impl Deed<QueueLaw> for TakeItem {
    ghost ready = { λ it of. TakeReady (ends of.form of.head of.tail) };

    ghost next = { λ it of. take_next };

    ghost allows = { λ it of. TellsNothing };

    ghost keeps = { λ it of. deeds.take (ends of.form of.head of.tail) of.apart };
}

/// Field 1 of the new dummy is cleared.
#[derive(Clone, Copy, Drop)]
pub struct EmptyDummy;

impl Deed<QueueLaw> for EmptyDummy {
    ghost ready = { λ it of. EmptyReady };

    ghost next = { λ it of. empty_next };

    ghost allows = { λ it of. TellsNothing };

    ghost keeps = { λ it of. deeds.empty (ends of.form of.head of.tail) of.apart };
}
