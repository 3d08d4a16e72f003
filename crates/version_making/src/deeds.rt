//! The deeds of the calls that make nodes.
ghost use Rattle.version_making.specs.Deeds.{KidReady, KidTells, NewReady, OpenTells, kid_keeps, kid_next, new_keeps, new_next, open_keeps};
ghost use Rattle.version_making.specs.Roots.{RootTells, root_keeps};
ghost use Rattle.map_law.specs.Lessons.{ReadReady, SeeReady, read_next, see_next};
ghost use Rattle.map_law.specs.Making.{MakeTells};

use map_protocol::MapLaw;
use protected_loads::{Deed, SlotId};

/// A node is made, in whichever slot is free: `MakeNode` of that slot.
#[derive(Clone, Copy, Drop)]
pub struct MakeNew;

impl Deed<MapLaw> for MakeNew {
    ghost ready = { λ it of. NewReady };

    ghost next = { λ it of. new_next };

    ghost allows = { λ it of. MakeTells of.cell };

    ghost keeps = { λ it of. new_keeps of.cell };
}

/// A field of the node that was made last gets a node: `SetField`, or a calm step where the seat is to destroy the
/// slot, which it never is, since it owns a reference to it.
#[derive(Clone, Copy, Drop)]
pub struct SetKid {
    /// The node whose field is set.
    pub slot: SlotId,
    /// The number of the field, 0 or 1.
    pub side: u32,
    /// What it is to hold.
    pub kid: SlotId,
}

impl Deed<MapLaw> for SetKid {
    ghost ready = { λ it of. KidReady it.slot it.side it.kid };

    ghost next = { λ it of. kid_next it.side it.kid };

    ghost allows = { λ it of. KidTells };

    ghost keeps = { λ it of. kid_keeps of.cell it.slot it.side it.kid };
}

/// A field is read of a node that the seat holds and that nobody changes: `ReadField`, which tells besides that each
/// field of such a node holds what the seat has noted of it.
#[derive(Clone, Copy, Drop)]
pub struct OpenSide {
    /// The node.
    pub slot: SlotId,
    /// The number of the field, 0 or 1.
    pub side: u32,
}

impl Deed<MapLaw> for OpenSide {
    ghost ready = { λ it of. ReadReady it.slot it.side };

    ghost next = { λ it of. read_next it.slot it.side };

    ghost allows = { λ it of. OpenTells of.cell };

    ghost keeps = { λ it of. open_keeps of.cell it.slot it.side };
}

/// The root cell is looked at: `SeeRoot`, which tells besides that what stands there is a node.
#[derive(Clone, Copy, Drop)]
pub struct LoadRoot;

impl Deed<MapLaw> for LoadRoot {
    ghost ready = { λ it of. SeeReady of.cell };

    ghost next = { λ it of. see_next };

    ghost allows = { λ it of. RootTells of.cell };

    ghost keeps = { λ it of. root_keeps of.cell };
}
