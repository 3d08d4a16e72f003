//! The deeds by which a seat learns.
ghost use Rattle.std.specs.Prelude.{true, false};
ghost use Rattle.queue_law.specs.Chain.{ends};
ghost use Rattle.queue_law.specs.Lessons.{AheadReady, AttachReady, ItemReady, LearnReady, NextReady, PassedReady, ahead_next, attach_next, item_next, learn_next, next_next, passed_next};
ghost use Rattle.queue_law.specs.Lessons.{AttachTells, CellTells, ItemTells, NextTells, PassedTells, TellsNothing};
ghost use Rattle.queue_law.proofs.Deeds as deeds;

use crate::law::QueueLaw;
use protocol_pairs::Deed;

/// What the head cell held, if the seat then holds it. It is a node.
#[derive(Clone, Copy, Drop)]
pub struct LearnHead;

impl Deed<QueueLaw> for LearnHead {
    ghost ready = { λ it of. LearnReady of.head };

    ghost next = { λ it of. learn_next true };

    ghost allows = { λ it of. CellTells of.head };

    ghost keeps = { λ it of. deeds.learn_head (ends of.form of.head of.tail) of.apart };
}

/// What the tail cell held, if the seat then holds it. It is a node.
#[derive(Clone, Copy, Drop)]
pub struct LearnTail;

impl Deed<QueueLaw> for LearnTail {
    ghost ready = { λ it of. LearnReady of.tail };

    ghost next = { λ it of. learn_next false };

    ghost allows = { λ it of. CellTells of.tail };

    ghost keeps = { λ it of. deeds.learn_tail (ends of.form of.head of.tail) of.apart };
}

/// The node after one that was seen. Where the head cell held that one and there is none, nothing is linked; else
/// what follows is a node.
#[derive(Clone, Copy, Drop)]
pub struct LearnNext;

impl Deed<QueueLaw> for LearnNext {
    ghost ready = { λ it of. NextReady };

    ghost next = { λ it of. next_next };

    ghost allows = { λ it of. NextTells (ends of.form of.head of.tail) };

    ghost keeps = { λ it of. deeds.next (ends of.form of.head of.tail) of.apart };
}

/// In a linked queue: field 0 of the node after one that was seen. Where it isn't null, the tail cell has gone past the
/// one that was seen.
#[derive(Clone, Copy, Drop)]
pub struct LookAhead;

impl Deed<QueueLaw> for LookAhead {
    ghost ready = { λ it of. AheadReady (ends of.form of.head of.tail) };

    ghost next = { λ it of. ahead_next };

    ghost allows = { λ it of. TellsNothing };

    ghost keeps = { λ it of. deeds.ahead (ends of.form of.head of.tail) of.apart };
}

/// What the tail cell held, where it has gone past a node that was seen. It isn't that node.
#[derive(Clone, Copy, Drop)]
pub struct FindPassed;

impl Deed<QueueLaw> for FindPassed {
    ghost ready = { λ it of. PassedReady (ends of.form of.head of.tail) };

    ghost next = { λ it of. passed_next };

    ghost allows = { λ it of. PassedTells (ends of.form of.head of.tail) };

    ghost keeps = { λ it of. deeds.passed (ends of.form of.head of.tail) of.apart };
}

/// The item of the node after one that was seen. Where there is none, the head cell holds another node than the one
/// that was seen.
#[derive(Clone, Copy, Drop)]
pub struct LearnItem;

impl Deed<QueueLaw> for LearnItem {
    ghost ready = { λ it of. ItemReady };

    ghost next = { λ it of. item_next };

    ghost allows = { λ it of. ItemTells (ends of.form of.head of.tail) };

    ghost keeps = { λ it of. deeds.item (ends of.form of.head of.tail) of.apart };
}

/// The head cell held a slot: the seat is attached.
#[derive(Clone, Copy, Drop)]
pub struct AttachSeat;

impl Deed<QueueLaw> for AttachSeat {
    ghost ready = { λ it of. AttachReady (ends of.form of.head of.tail) };

    ghost next = { λ it of. attach_next };

    ghost allows = { λ it of. AttachTells (ends of.form of.head of.tail) };

    ghost keeps = { λ it of. deeds.attach (ends of.form of.head of.tail) of.apart };
}
