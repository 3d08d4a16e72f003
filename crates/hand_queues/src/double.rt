//! A doubly linked queue as a queue by which seats hand references on. Each call is the queue's own.
ghost use Rattle.double_link_queue.specs.Queues.{IsDoubleOf};

use crate::hand_queue::HandQueue;
use double_link_queue::{
    Deed, Domain, DoubleQueue, HasQueue, PopError, PushError, PushRefused, Seat, Spent, Strong,
};
use std::sync::Wait;

impl HandQueue for DoubleQueue {
    ghost is_on = { λ it d. IsDoubleOf it.head it.tail d };

    fn try_attach<S, P: HasQueue<S>>(&self, domain: &Domain<P>, seat: &mut Seat<P>) -> bool {
        DoubleQueue::try_attach::<S, P>(self, domain, seat)
    }

    fn attach<S, P: HasQueue<S>, R: Wait>(&self, rt: &R, domain: &Domain<P>, seat: &mut Seat<P>) {
        DoubleQueue::attach::<S, P, R>(self, rt, domain, seat)
    }

    fn try_push<S, P: HasQueue<S>>(
        &self,
        domain: &Domain<P>,
        seat: &mut Seat<P>,
        item: Strong,
    ) -> Result<(), PushError> {
        DoubleQueue::try_push::<S, P>(self, domain, seat, item)
    }

    fn push<S, P: HasQueue<S>, R: Wait>(
        &self,
        rt: &R,
        domain: &Domain<P>,
        seat: &mut Seat<P>,
        item: Strong,
    ) -> Result<(), PushRefused> {
        DoubleQueue::push::<S, P, R>(self, rt, domain, seat, item)
    }

    fn try_pop<S, P: HasQueue<S>>(
        &self,
        domain: &Domain<P>,
        seat: &mut Seat<P>,
    ) -> Result<Option<Strong>, PopError> {
        DoubleQueue::try_pop::<S, P>(self, domain, seat)
    }

    fn try_pop_with<S, P: HasQueue<S>, D: Deed<P>>(
        &self,
        domain: &Domain<P>,
        seat: &mut Seat<P>,
        field: u32,
        deed: D,
    ) -> Result<Option<(Strong, Option<Strong>)>, PopError> {
        DoubleQueue::try_pop_with::<S, P, D>(self, domain, seat, field, deed)
    }

    fn pop<S, P: HasQueue<S>, R: Wait>(
        &self,
        rt: &R,
        domain: &Domain<P>,
        seat: &mut Seat<P>,
    ) -> Result<Option<Strong>, Spent> {
        DoubleQueue::pop::<S, P, R>(self, rt, domain, seat)
    }

    fn shut<S, P: HasQueue<S>>(&self, domain: &Domain<P>, root: &mut Seat<P>) {
        DoubleQueue::shut::<S, P>(self, domain, root)
    }
}
