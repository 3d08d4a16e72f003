//! The deeds that link nodes.
ghost use Rattle.queue_law.specs.Chain.{ends};
ghost use Rattle.queue_law.specs.Pushes.{AdvanceReady, ExchangeReady, HelpReady, LandReady, LinkReady, advance_next, exchange_next, help_next, land_next, link_next};
ghost use Rattle.queue_law.specs.Lessons.{TellsNothing};
ghost use Rattle.queue_law.proofs.Deeds as deeds;

use crate::law::QueueLaw;
use protocol_pairs::Deed;

/// In a linked queue: field 0 of the last node, which the tail cell held, gets the seat's own node, where it is still
/// null. This is the deciding step of a push.
#[derive(Clone, Copy, Drop)]
pub struct LinkNode;

impl Deed<QueueLaw> for LinkNode {
    ghost ready = { λ it of. LinkReady (ends of.form of.head of.tail) };

    ghost next = { λ it of. link_next };

    ghost allows = { λ it of. TellsNothing };

    ghost keeps = { λ it of. deeds.link (ends of.form of.head of.tail) of.apart };
}

/// In a linked queue: the tail cell gets the node after the one that it held. Afterwards it has held that node, whoever
/// advanced it.
#[derive(Clone, Copy, Drop)]
pub struct AdvanceTail;

impl Deed<QueueLaw> for AdvanceTail {
    ghost ready = { λ it of. AdvanceReady (ends of.form of.head of.tail) };

    ghost next = { λ it of. advance_next };

    ghost allows = { λ it of. TellsNothing };

    ghost keeps = { λ it of. deeds.advance (ends of.form of.head of.tail) of.apart };
}

/// In a doubly linked queue: the tail cell gets the seat's own node, where it still holds the node to which that one
/// leads back. This is the deciding step of a push.
#[derive(Clone, Copy, Drop)]
pub struct ExchangeTail;

impl Deed<QueueLaw> for ExchangeTail {
    ghost ready = { λ it of. ExchangeReady (ends of.form of.head of.tail) };

    ghost next = { λ it of. exchange_next };

    ghost allows = { λ it of. TellsNothing };

    ghost keeps = { λ it of. deeds.exchange (ends of.form of.head of.tail) of.apart };
}

/// In a doubly linked queue: field 0 of the node before a pushed one gets that one, where it is still null. It ends the
/// push in flight.
#[derive(Clone, Copy, Drop)]
pub struct LandPush;

impl Deed<QueueLaw> for LandPush {
    ghost ready = { λ it of. LandReady };

    ghost next = { λ it of. land_next };

    ghost allows = { λ it of. TellsNothing };

    ghost keeps = { λ it of. deeds.land (ends of.form of.head of.tail) of.apart };
}

/// In a doubly linked queue: field 0 of the node before one that was seen gets that one, where it is still null.
#[derive(Clone, Copy, Drop)]
pub struct HelpLink;

impl Deed<QueueLaw> for HelpLink {
    ghost ready = { λ it of. HelpReady (ends of.form of.head of.tail) };

    ghost next = { λ it of. help_next };

    ghost allows = { λ it of. TellsNothing };

    ghost keeps = { λ it of. deeds.help (ends of.form of.head of.tail) of.apart };
}
