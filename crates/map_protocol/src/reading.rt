//! The deeds by which a version is read.
ghost use Rattle.map_law.specs.Lessons.{AnswerReady, AnswerTells, ReadReady, ReadTells, SeeReady, SeeTells, answer_next, read_next, see_next};
ghost use Rattle.map_law.proofs.Clearing.{answer_keeps};
ghost use Rattle.map_law.proofs.Lessons.{read_keeps, see_keeps};

use crate::law::MapLaw;
use plain_protocol::{Deed, SlotId};

/// The root cell is looked at: the node that stands there is nobody's to change.
#[derive(Clone, Copy, Drop)]
pub struct SeeRoot;

impl Deed<MapLaw> for SeeRoot {
    ghost ready = { λ it of. SeeReady of.cell };

    ghost next = { λ it of. see_next };

    ghost allows = { λ it of. SeeTells of.cell };

    ghost keeps = { λ it of. see_keeps of.cell };
}

/// A field of a node is looked at, which the seat holds and nobody changes: what it holds is noted, for as long as the
/// node lives. A check finds there what the look before it has shown.
#[derive(Clone, Copy, Drop)]
pub struct ReadField {
    /// The node.
    pub slot: SlotId,
    /// The number of the field, 0 or 1.
    pub side: u32,
}

impl Deed<MapLaw> for ReadField {
    ghost ready = { λ it of. ReadReady it.slot it.side };

    ghost next = { λ it of. read_next it.slot it.side };

    ghost allows = { λ it of. ReadTells of.cell };

    ghost keeps = { λ it of. read_keeps of.cell it.slot it.side };
}

/// A last look at the root cell, by which a read is answered: where it shows a node that the seat has, the map is what
/// the seat's notes tell from it on.
#[derive(Clone, Copy, Drop)]
pub struct AnswerRead;

impl Deed<MapLaw> for AnswerRead {
    ghost ready = { λ it of. AnswerReady of.cell };

    ghost next = { λ it of. answer_next };

    ghost allows = { λ it of. AnswerTells of.cell };

    ghost keeps = { λ it of. answer_keeps of.cell };
}
