//! The deeds on a node of the seat's own.
ghost use Rattle.queue_law.specs.Chain.{ends};
ghost use Rattle.queue_law.specs.Nodes.{BackReady, CarryReady, MakeReady, back_next, carry_next, make_next};
ghost use Rattle.queue_law.specs.Lessons.{TellsNothing};
ghost use Rattle.queue_law.proofs.Deeds as deeds;

use crate::law::QueueLaw;
use protocol_pairs::Deed;

/// The slot that the seat is filling becomes a node, and the seat's own.
#[derive(Clone, Copy, Drop)]
pub struct MakeNode;

impl Deed<QueueLaw> for MakeNode {
    ghost ready = { λ it of. MakeReady };

    ghost next = { λ it of. make_next };

    ghost allows = { λ it of. TellsNothing };

    ghost keeps = { λ it of. deeds.make (ends of.form of.head of.tail) of.apart };
}

/// Field 1 of the seat's own node gets an item, of which the seat gives up a reference.
#[derive(Clone, Copy, Drop)]
pub struct CarryItem;

impl Deed<QueueLaw> for CarryItem {
    ghost ready = { λ it of. CarryReady };

    ghost next = { λ it of. carry_next };

    ghost allows = { λ it of. TellsNothing };

    ghost keeps = { λ it of. deeds.carry (ends of.form of.head of.tail) of.apart };
}

/// The weak field of the seat's own node gets a weak reference.
#[derive(Clone, Copy, Drop)]
pub struct LinkBack;

impl Deed<QueueLaw> for LinkBack {
    ghost ready = { λ it of. BackReady };

    ghost next = { λ it of. back_next };

    ghost allows = { λ it of. TellsNothing };

    ghost keeps = { λ it of. deeds.back (ends of.form of.head of.tail) of.apart };
}
