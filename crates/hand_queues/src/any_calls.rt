//! The calls on a queue of either form: those of the form that it has.
ghost use Rattle.hand_queues.specs.Queues.{IsAnyOf};

use crate::any_queue::AnyQueue;
use crate::hand_queue::HandQueue;
use double_link_queue::{
    Deed, Domain, DoubleQueue, HasQueue, LinkedQueue, PopError, PushError, PushRefused, Seat,
    Spent, Strong,
};
use std::sync::Wait;

impl HandQueue for AnyQueue {
    ghost is_on = { IsAnyOf };

    fn try_attach<S, P: HasQueue<S>>(&self, domain: &Domain<P>, seat: &mut Seat<P>) -> bool {
        match self {
            AnyQueue::Linked(queue) => {
                <LinkedQueue as HandQueue>::try_attach::<S, P>(queue, domain, seat)
            }
            AnyQueue::Double(queue) => {
                <DoubleQueue as HandQueue>::try_attach::<S, P>(queue, domain, seat)
            }
        }
    }

    fn attach<S, P: HasQueue<S>, R: Wait>(&self, rt: &R, domain: &Domain<P>, seat: &mut Seat<P>) {
        match self {
            AnyQueue::Linked(queue) => {
                <LinkedQueue as HandQueue>::attach::<S, P, R>(queue, rt, domain, seat)
            }
            AnyQueue::Double(queue) => {
                <DoubleQueue as HandQueue>::attach::<S, P, R>(queue, rt, domain, seat)
            }
        }
    }

    fn try_push<S, P: HasQueue<S>>(
        &self,
        domain: &Domain<P>,
        seat: &mut Seat<P>,
        item: Strong,
    ) -> Result<(), PushError> {
        match self {
            AnyQueue::Linked(queue) => {
                <LinkedQueue as HandQueue>::try_push::<S, P>(queue, domain, seat, item)
            }
            AnyQueue::Double(queue) => {
                <DoubleQueue as HandQueue>::try_push::<S, P>(queue, domain, seat, item)
            }
        }
    }

    fn push<S, P: HasQueue<S>, R: Wait>(
        &self,
        rt: &R,
        domain: &Domain<P>,
        seat: &mut Seat<P>,
        item: Strong,
    ) -> Result<(), PushRefused> {
        match self {
            AnyQueue::Linked(queue) => {
                <LinkedQueue as HandQueue>::push::<S, P, R>(queue, rt, domain, seat, item)
            }
            AnyQueue::Double(queue) => {
                <DoubleQueue as HandQueue>::push::<S, P, R>(queue, rt, domain, seat, item)
            }
        }
    }

    fn try_pop<S, P: HasQueue<S>>(
        &self,
        domain: &Domain<P>,
        seat: &mut Seat<P>,
    ) -> Result<Option<Strong>, PopError> {
        match self {
            AnyQueue::Linked(queue) => {
                <LinkedQueue as HandQueue>::try_pop::<S, P>(queue, domain, seat)
            }
            AnyQueue::Double(queue) => {
                <DoubleQueue as HandQueue>::try_pop::<S, P>(queue, domain, seat)
            }
        }
    }

    fn try_pop_with<S, P: HasQueue<S>, D: Deed<P>>(
        &self,
        domain: &Domain<P>,
        seat: &mut Seat<P>,
        field: u32,
        deed: D,
    ) -> Result<Option<(Strong, Option<Strong>)>, PopError> {
        match self {
            AnyQueue::Linked(queue) => {
                <LinkedQueue as HandQueue>::try_pop_with::<S, P, D>(
                    queue, domain, seat, field, deed,
                )
            }
            AnyQueue::Double(queue) => {
                <DoubleQueue as HandQueue>::try_pop_with::<S, P, D>(
                    queue, domain, seat, field, deed,
                )
            }
        }
    }

    fn pop<S, P: HasQueue<S>, R: Wait>(
        &self,
        rt: &R,
        domain: &Domain<P>,
        seat: &mut Seat<P>,
    ) -> Result<Option<Strong>, Spent> {
        match self {
            AnyQueue::Linked(queue) => {
                <LinkedQueue as HandQueue>::pop::<S, P, R>(queue, rt, domain, seat)
            }
            AnyQueue::Double(queue) => {
                <DoubleQueue as HandQueue>::pop::<S, P, R>(queue, rt, domain, seat)
            }
        }
    }

    fn shut<S, P: HasQueue<S>>(&self, domain: &Domain<P>, root: &mut Seat<P>) {
        match self {
            AnyQueue::Linked(queue) => {
                <LinkedQueue as HandQueue>::shut::<S, P>(queue, domain, root)
            }
            AnyQueue::Double(queue) => {
                <DoubleQueue as HandQueue>::shut::<S, P>(queue, domain, root)
            }
        }
    }
}
