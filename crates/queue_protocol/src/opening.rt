//! The deeds of seat 0 that lay and shut a queue.
ghost use Rattle.queue_law.specs.Chain.{ends};
ghost use Rattle.queue_law.specs.Opening.{LayHeadReady, LayTailReady, ShutHeadReady, ShutTailReady, lay_head_next, lay_tail_next, shut_head_next, shut_tail_next};
ghost use Rattle.queue_law.specs.Lessons.{TellsNothing};
ghost use Rattle.queue_law.proofs.Deeds as deeds;

use crate::law::QueueLaw;
use protocol_pairs::Deed;

/// The dummy goes into the tail cell.
#[derive(Clone, Copy, Drop)]
pub struct LayTail;

impl Deed<QueueLaw> for LayTail {
    ghost ready = { λ it of. LayTailReady (ends of.form of.head of.tail) };

    ghost next = { λ it of. lay_tail_next };

    ghost allows = { λ it of. TellsNothing };

    ghost keeps = { λ it of. deeds.lay_tail (ends of.form of.head of.tail) of.apart };
}

/// Then it goes into the head cell, and the queue is laid.
#[derive(Clone, Copy, Drop)]
pub struct LayHead;

impl Deed<QueueLaw> for LayHead {
    ghost ready = { λ it of. LayHeadReady (ends of.form of.head of.tail) };

    ghost next = { λ it of. lay_head_next };

    ghost allows = { λ it of. TellsNothing };

    ghost keeps = { λ it of. deeds.lay_head (ends of.form of.head of.tail) of.apart };
}

/// The head cell is cleared, and what waits is noted as left.
#[derive(Clone, Copy, Drop)]
pub struct ShutHead;

impl Deed<QueueLaw> for ShutHead {
    ghost ready = { λ it of. ShutHeadReady (ends of.form of.head of.tail) };

    ghost next = { λ it of. shut_head_next (ends of.form of.head of.tail) };

    ghost allows = { λ it of. TellsNothing };

    ghost keeps = { λ it of. deeds.shut_head (ends of.form of.head of.tail) of.apart };
}

/// Then the tail cell is cleared.
#[derive(Clone, Copy, Drop)]
pub struct ShutTail;

impl Deed<QueueLaw> for ShutTail {
    ghost ready = { λ it of. ShutTailReady (ends of.form of.head of.tail) };

    ghost next = { λ it of. shut_tail_next };

    ghost allows = { λ it of. TellsNothing };

    ghost keeps = { λ it of. deeds.shut_tail (ends of.form of.head of.tail) of.apart };
}
