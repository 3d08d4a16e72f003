//! The deeds that change what the root cell holds.
ghost use Rattle.map_law.specs.Publishing.{ClearReady, ClearTells, PublishReady, PublishTells, clear_next, publish_next};
ghost use Rattle.map_law.proofs.Clearing.{clear_keeps};
ghost use Rattle.map_law.proofs.Publishing.{publish_keeps};

use crate::law::MapLaw;
use map_law::Change;
use plain_protocol::{Deed, SlotId};

/// The deciding exchange: the root cell gets a new version, where it still holds the one that was read. The map has the
/// change then, and the view one entry more, with what the key had before. Else nothing changes.
#[derive(Clone, Copy, Drop)]
pub struct PublishTree {
    /// The root of the version that was read.
    pub old: Option<SlotId>,
    /// The root of the new one.
    pub new: Option<SlotId>,
    /// The key that it changes.
    pub key: u64,
    /// The change.
    pub change: Change,
    /// What the key has in the version that was read.
    pub answer: Option<u64>,
}

impl Deed<MapLaw> for PublishTree {
    ghost ready = { λ it of. PublishReady of.cell it.old it.new it.key it.change it.answer };

    ghost next = { λ it of. publish_next it.old it.new it.key it.change it.answer };

    ghost allows = { λ it of. PublishTells of.cell it.key it.change it.answer };

    ghost keeps = { λ it of. publish_keeps of.cell it.old it.new it.key it.change it.answer };
}

/// Seat 0, when it is alone, puts null into the root cell. No version is published from then on.
#[derive(Clone, Copy, Drop)]
pub struct ClearRoot;

impl Deed<MapLaw> for ClearRoot {
    ghost ready = { λ it of. ClearReady of.cell };

    ghost next = { λ it of. clear_next };

    ghost allows = { λ it of. ClearTells of.cell };

    ghost keeps = { λ it of. clear_keeps of.cell };
}
