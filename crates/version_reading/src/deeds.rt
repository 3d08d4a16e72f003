//! The deeds of a read.
ghost use Rattle.map_law.specs.Lessons.{AnswerReady, answer_next, read_next};
ghost use Rattle.version_reading.specs.Lessons.{LookTells, SideReady, SideTells};
ghost use Rattle.version_reading.specs.Deeds.{look_keeps, side_keeps};

use map_protocol::MapLaw;
use protected_loads::{Deed, SlotId};

/// A look at the root cell. It tells the map, as far as the seat has read it on ways down from the node that stands
/// there.
#[derive(Clone, Copy, Drop)]
pub struct LookAtRoot;

impl Deed<MapLaw> for LookAtRoot {
    ghost ready = { λ it of. AnswerReady of.cell };

    ghost next = { λ it of. answer_next };

    ghost allows = { λ it of. LookTells of.cell };

    ghost keeps = { λ it of. look_keeps of.cell };
}

/// A look at a field of a node that the seat holds and that nobody changes, or a check there: `ReadField`, of which it
/// is told too that no note of the seat's own nodes goes, and that what was noted of such a field stands there still.
#[derive(Clone, Copy, Drop)]
pub struct ReadSide {
    /// The node.
    pub slot: SlotId,
    /// The number of the field, 0 or 1.
    pub side: u32,
}

impl Deed<MapLaw> for ReadSide {
    ghost ready = { λ it of. SideReady it.slot it.side };

    ghost next = { λ it of. read_next it.slot it.side };

    ghost allows = { λ it of. SideTells of.cell };

    ghost keeps = { λ it of. side_keeps of.cell it.slot it.side };
}
