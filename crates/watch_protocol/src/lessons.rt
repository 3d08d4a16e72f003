//! The deeds by which a seat learns of observers.
ghost use Rattle.watch_law.specs.Lessons.{FindReady, FindTells, ReadReady, ReadTells, find_next, read_next};
ghost use Rattle.watch_law.proofs.Lessons.{find_keeps, read_keeps};
ghost use Rattle.watch_protocol.specs.Sides.{area_of};

use crate::law::WatchLaw;
use queue_protocol::Deed;

/// What the cell of an id holds, by a look or a check: an observer with this id, or null. To the seat of the id it is
/// what this seat put there last.
#[derive(Clone, Copy, Drop)]
pub struct FindObserver {
    pub id: u32,
}

impl Deed<WatchLaw> for FindObserver {
    ghost ready = { λ it of. FindReady (area_of of) it.id };

    ghost next = { λ it of. find_next };

    ghost allows = { λ it of. FindTells (area_of of) it.id };

    ghost keeps = { λ it of. find_keeps (area_of of) it.id };
}

/// What field 0 of a slot holds that the seat holds strongly, whichever slot it is, by a look or a check: of a delivery
/// it is the observer that the delivery was given.
#[derive(Clone, Copy, Drop)]
pub struct ReadDelivery;

impl Deed<WatchLaw> for ReadDelivery {
    ghost ready = { λ it of. ReadReady };

    ghost next = { λ it of. read_next };

    ghost allows = { λ it of. ReadTells };

    ghost keeps = { λ it of. read_keeps (area_of of) };
}
