//! The deeds of the queue's loads: those of the protocol for a load of a cell, which tell besides that the cell of an
//! attached seat isn't null; and that of a load of an item, which notes it also where there is none.
ghost use Rattle.std.specs.Prelude.{true, false};
ghost use Rattle.slot_store.specs.acquire_retire.Calls.{same_view};
ghost use Rattle.queue_protocol.specs.queue_law.Chain.{ends};
ghost use Rattle.queue_protocol.specs.queue_law.Lessons.{ItemReady, LearnReady, TellsNothing, learn_next};
ghost use Rattle.linked_queue.specs.Cells.{HeadTells, TailTells, head_keeps, tail_keeps};
ghost use Rattle.linked_queue.specs.Items.{GoneReady, GoneTells, gone_keeps, see_item_keeps, see_item_next};

use queue_protocol::{Deed, QueueLaw};

/// What the head cell held, if the seat then holds it. It is a node, and where the seat is attached there is one.
#[derive(Clone, Copy, Debug, Drop)]
pub struct SeeHead;

impl Deed<QueueLaw> for SeeHead {
    ghost ready = { λ it of. LearnReady of.head };

    ghost next = { λ it of. learn_next true };

    ghost allows = { λ it of. HeadTells (ends of.form of.head of.tail) };

    ghost keeps = { λ it of. head_keeps (ends of.form of.head of.tail) of.apart };
}

/// What the tail cell held, in the same way.
#[derive(Clone, Copy, Debug, Drop)]
pub struct SeeTail;

impl Deed<QueueLaw> for SeeTail {
    ghost ready = { λ it of. LearnReady of.tail };

    ghost next = { λ it of. learn_next false };

    ghost allows = { λ it of. TailTells (ends of.form of.head of.tail) };

    ghost keeps = { λ it of. tail_keeps (ends of.form of.head of.tail) of.apart };
}

/// The item of the node after one that was seen. Where there is none, a slot is noted in its place that a domain of so
/// many slots doesn't have.
#[derive(Clone, Copy, Debug, Drop)]
pub(crate) struct SeeItem {
    pub slots: u32,
}

impl Deed<QueueLaw> for SeeItem {
    ghost ready = { λ it of. ItemReady };

    ghost next = { λ it of. see_item_next it.slots };

    ghost allows = { λ it of. TellsNothing };

    ghost keeps = { λ it of. see_item_keeps (ends of.form of.head of.tail) it.slots };
}

/// Whether the head cell still holds a node behind which there was no item: in a domain of so many slots it doesn't.
#[derive(Clone, Copy, Debug, Drop)]
pub(crate) struct SeeGone {
    pub slots: u32,
}

impl Deed<QueueLaw> for SeeGone {
    ghost ready = { λ it of. GoneReady (ends of.form of.head of.tail) it.slots };

    ghost next = { λ it of. same_view };

    ghost allows = { λ it of. GoneTells (ends of.form of.head of.tail) it.slots };

    ghost keeps = { λ it of. gone_keeps (ends of.form of.head of.tail) it.slots };
}
