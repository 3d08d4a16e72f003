//! How a queue of either form is laid.
ghost use Rattle.std.specs.Prelude.{◌≡◌, ◌≤◌, ◌+◌, IfErr, IfOk, OnErr};
ghost use Rattle.double_link_queue.specs.core_events.Steps.{HasRoom};
ghost use Rattle.double_link_queue.specs.control_word.Resting.{IsAtRest};
ghost use Rattle.double_link_queue.specs.part_calls.Parts.{StaysBeside, as_part, seen_by};
ghost use Rattle.double_link_queue.specs.linked_queue.Leaving.{Leaves};
ghost use Rattle.double_link_queue.specs.linked_queue.Nodes.{IsWhyUnlaid, Lays, laid_in};
ghost use Rattle.double_link_queue.specs.linked_queue.Queues.{CanLay, IsAttached, deeds_in};
ghost use Rattle.hand_queues.specs.Queues.{IsAnyOf, queue_in};

use crate::any_queue::AnyQueue;
use double_link_queue::{Domain, DoubleQueue, Form, HasQueue, LinkedQueue, MakeError, Seat};

impl AnyQueue {
    /// Lays a queue of this form over two cells: makes the dummy, and puts it into the tail cell and then into the head
    /// cell. It is for seat 0, once, and attaches it. A refusal has the cause of the `make`, or the seat had no add
    /// left for the second reference; then nothing is laid, and a dummy that was made is given up. One make at most. At
    /// most 21 steps more than there are slots, and two collects.
    pub fn lay<S, P: HasQueue<S>>(
        domain: &Domain<P>,
        seat: &mut Seat<P>,
        form: Form,
        head: u32,
        tail: u32,
    ) -> Result<AnyQueue, MakeError>
        requires rest { IsAtRest domain.now seat.old }
        requires room { HasRoom seat.old.view.core }
        requires queue { IsAnyOf (queue_in form head tail) (as_part P.part domain.now) }
        requires unlaid { CanLay (P.seen seat.old.view.client) }
        ensures queue { IfOk result (λ queue. queue ≡ queue_in form head tail) }
        ensures is_on { IfOk result (λ queue. IsAnyOf queue (as_part P.part domain.now)) }
        ensures lays { IfOk result
            (λ queue. Lays P.Kind.fits (as_part P.part domain.now) (seen_by P.seen seat.old)
            (seen_by P.seen seat.new)) }
        ensures laid { IfOk result (λ queue. deeds_in (P.seen seat.new.view.client)
            ≡ laid_in (deeds_in (P.seen seat.old.view.client))) }
        ensures attached { IfOk result (λ queue. IsAttached (P.seen seat.new.view.client)) }
        ensures refused { OnErr result (deeds_in (P.seen seat.new.view.client)
            ≡ deeds_in (P.seen seat.old.view.client)) }
        ensures why { IfErr result
            (λ error. IsWhyUnlaid P.Kind.fits (as_part P.part domain.now) error
            (seen_by P.seen seat.old) (seen_by P.seen seat.new)) }
        ensures leaves { Leaves seat.old.view.core.owned (seen_by P.seen seat.old)
            (seen_by P.seen seat.new) }
        ensures makes { seat.new.view.core.makes ≤ seat.old.view.core.makes + 1 }
        ensures makes_kept { seat.old.view.core.makes ≤ seat.new.view.core.makes }
        ensures beside { StaysBeside P.seen P.with_seen seat.old seat.new }
        ensures room { HasRoom seat.new.view.core }
        ensures rest { IsAtRest domain.now seat.new }
    {
        match form {
            Form::Linked => match LinkedQueue::lay::<S, P>(domain, seat, head, tail) {
                Ok(queue) => Ok(AnyQueue::Linked(queue)),
                Err(error) => Err(error),
            },
            Form::Double => match DoubleQueue::lay::<S, P>(domain, seat, head, tail) {
                Ok(queue) => Ok(AnyQueue::Double(queue)),
                Err(error) => Err(error),
            },
        }
    }
}
