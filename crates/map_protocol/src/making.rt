//! The deeds that make a node.
ghost use Rattle.map_law.specs.Making.{MakeReady, MakeTells, SetReady, SetTells, make_next, set_next};
ghost use Rattle.map_law.proofs.Making.{make_keeps};
ghost use Rattle.map_law.proofs.SetDeed.{set_keeps};

use crate::law::MapLaw;
use plain_protocol::{Deed, SlotId};

/// The slot that the seat is filling becomes a node, which is raw: both its fields are null, and the seat alone may set
/// them.
#[derive(Clone, Copy, Drop)]
pub struct MakeNode {
    /// The slot.
    pub slot: SlotId,
}

impl Deed<MapLaw> for MakeNode {
    ghost ready = { λ it of. MakeReady it.slot };

    ghost next = { λ it of. make_next it.slot };

    ghost allows = { λ it of. MakeTells of.cell };

    ghost keeps = { λ it of. make_keeps of.cell it.slot };
}

/// A field of the node that was made last gets a node, which nobody changes from then on.
#[derive(Clone, Copy, Drop)]
pub struct SetField {
    /// The node whose field is set.
    pub slot: SlotId,
    /// The number of the field, 0 or 1.
    pub side: u32,
    /// What it is to hold.
    pub kid: SlotId,
}

impl Deed<MapLaw> for SetField {
    ghost ready = { λ it of. SetReady it.slot it.side it.kid };

    ghost next = { λ it of. set_next it.side it.kid };

    ghost allows = { λ it of. SetTells of.cell };

    ghost keeps = { λ it of. set_keeps of.cell it.slot it.side it.kid };
}
