//! The deeds by which a seat of a doubly linked queue learns whether there is a link to help.
ghost use Rattle.queue_law.specs.Chain.{ends};
ghost use Rattle.queue_law.specs.Lessons.{BeforeReady, EndedReady, SetReady, before_next, ended_next, set_next};
ghost use Rattle.queue_law.specs.Lessons.{EndedTells, TellsNothing};
ghost use Rattle.queue_law.proofs.Deeds as deeds;

use crate::law::QueueLaw;
use protocol_pairs::Deed;

/// The node before one that was seen, by its weak field. Where that is null, there is none.
#[derive(Clone, Copy, Drop)]
pub struct LearnBefore;

impl Deed<QueueLaw> for LearnBefore {
    ghost ready = { λ it of. BeforeReady (ends of.form of.head of.tail) };

    ghost next = { λ it of. before_next };

    ghost allows = { λ it of. TellsNothing };

    ghost keeps = { λ it of. deeds.before (ends of.form of.head of.tail) of.apart };
}

/// An upgrade of the node before one that was seen: where it has ended, there is nothing to help; where it is live, it
/// is a node.
#[derive(Clone, Copy, Drop)]
pub struct FindEnded;

impl Deed<QueueLaw> for FindEnded {
    ghost ready = { λ it of. EndedReady (ends of.form of.head of.tail) };

    ghost next = { λ it of. ended_next };

    ghost allows = { λ it of. EndedTells };

    ghost keeps = { λ it of. deeds.ended (ends of.form of.head of.tail) of.apart };
}

/// Field 0 of the node before one that was seen: where it is set, there is nothing to help.
#[derive(Clone, Copy, Drop)]
pub struct FindSet;

impl Deed<QueueLaw> for FindSet {
    ghost ready = { λ it of. SetReady (ends of.form of.head of.tail) };

    ghost next = { λ it of. set_next };

    ghost allows = { λ it of. TellsNothing };

    ghost keeps = { λ it of. deeds.is_set (ends of.form of.head of.tail) of.apart };
}
