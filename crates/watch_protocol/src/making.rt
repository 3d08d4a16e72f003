//! The deeds that make observers and deliveries, and put observers into cells and deliveries.
ghost use Rattle.watch_law.specs.Making.{DeliveryReady, DeliveryTells, ObserverReady, ObserverTells, delivery_next, observer_next};
ghost use Rattle.watch_law.specs.Writes.{AddressReady, AddressTells, SubscribeReady, SubscribeTells, address_next, subscribe_next};
ghost use Rattle.watch_law.proofs.AddressDeed.{address_keeps};
ghost use Rattle.watch_law.proofs.Makes.{delivery_keeps, observer_keeps};
ghost use Rattle.watch_law.proofs.Subscribes.{subscribe_keeps};
ghost use Rattle.watch_protocol.specs.Sides.{area_of};

use crate::law::WatchLaw;
use queue_protocol::Deed;
use watch_law::SlotId;

/// The slot that the seat is filling, whichever it is, becomes an observer.
#[derive(Clone, Copy, Drop)]
pub struct MakeObserver;

impl Deed<WatchLaw> for MakeObserver {
    ghost ready = { λ it of. ObserverReady };

    ghost next = { λ it of. observer_next };

    ghost allows = { λ it of. ObserverTells };

    ghost keeps = { λ it of. observer_keeps (area_of of) };
}

/// It becomes a delivery, which is the seat's own until it is given an observer.
#[derive(Clone, Copy, Drop)]
pub struct MakeDelivery;

impl Deed<WatchLaw> for MakeDelivery {
    ghost ready = { λ it of. DeliveryReady };

    ghost next = { λ it of. delivery_next };

    ghost allows = { λ it of. DeliveryTells };

    ghost keeps = { λ it of. delivery_keeps (area_of of) };
}

/// The cell of an id of the seat's gets an observer with this id, which the seat owns.
#[derive(Clone, Copy, Drop)]
pub struct SubscribeObserver {
    pub id: u32,
    pub slot: SlotId,
}

impl Deed<WatchLaw> for SubscribeObserver {
    ghost ready = { λ it of. SubscribeReady (area_of of) it.id it.slot };

    ghost next = { λ it of. subscribe_next it.id it.slot };

    ghost allows = { λ it of. SubscribeTells (area_of of) it.id it.slot };

    ghost keeps = { λ it of. subscribe_keeps (area_of of) it.id it.slot };
}

/// Field 0 of the delivery that the seat made last gets an observer, which it keeps as long as it lives.
#[derive(Clone, Copy, Drop)]
pub struct AddressDelivery {
    pub slot: SlotId,
    pub observer: SlotId,
}

impl Deed<WatchLaw> for AddressDelivery {
    ghost ready = { λ it of. AddressReady it.slot it.observer };

    ghost next = { λ it of. address_next it.slot it.observer };

    ghost allows = { λ it of. AddressTells it.slot it.observer };

    ghost keeps = { λ it of. address_keeps (area_of of) it.slot it.observer };
}
