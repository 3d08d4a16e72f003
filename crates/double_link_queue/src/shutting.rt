//! How a queue is shut.
ghost use Rattle.std.specs.Prelude.{◌≡◌, ◌<◌, None};
ghost use Rattle.weak_part_calls.specs.plain_state.declared.act.EventPlace.TheVariants.{Cell};
ghost use Rattle.weak_part_calls.specs.core_events.Steps.{HasRoom};
ghost use Rattle.weak_part_calls.specs.control_word.Resting.{IsAtRest};
ghost use Rattle.weak_part_calls.specs.domain_rule.Views.{IsAlone};
ghost use Rattle.weak_part_calls.specs.retiring_stores.Exchanging.{Stores};
ghost use Rattle.linked_queue.specs.queue_law.Lessons.{TellsNothing};
ghost use Rattle.linked_queue.specs.queue_law.Opening.{shut_head_next, shut_tail_next};
ghost use Rattle.weak_part_calls.specs.part_calls.Parts.{HasBeside, StaysBeside, as_part, seen_by};
ghost use Rattle.linked_queue.specs.queue_law.Views.{first_view};
ghost use Rattle.linked_queue.specs.Leaving.{Leaves};
ghost use Rattle.linked_queue.specs.Queues.{ends_of};
ghost use Rattle.double_link_queue.specs.Queues.{IsDoubleOf};
ghost use Rattle.linked_queue.specs.Shuts.{CanShut, Shuts, half_shut_in, shut_in};

use crate::queue::DoubleQueue;
use linked_queue::{HasQueue, QueueLaw, ShutHead, ShutTail};
use weak_part_calls::{Domain, Place, Seat, store};

impl DoubleQueue {
    /// Shuts the queue: puts null into the head cell and then into the tail cell, and notes what still waited as left.
    /// It is for seat 0, once every other seat has left. Two steps, two collects, and no make.
    pub fn shut<S, P: HasQueue<S>>(&self, domain: &Domain<P>, root: &mut Seat<P>)
        requires rest { IsAtRest domain.now root.old }
        requires room { HasRoom root.old.view.core }
        requires queue { IsDoubleOf self.now.head self.now.tail (as_part P.part domain.now) }
        requires alone { IsAlone root.old.view }
        requires laid { CanShut (P.seen root.old.view.client) }
        ensures events { Shuts P.Kind.fits (as_part P.part domain.now) (seen_by P.seen root.old)
            (seen_by P.seen root.new) }
        ensures left { (P.seen root.new.view.client)
            ≡ shut_in (ends_of (as_part P.part domain.now)) (seen_by P.seen root.old)
            (P.seen root.old.view.client) }
        ensures makes { root.new.view.core.makes ≡ root.old.view.core.makes }
        ensures leaves { Leaves root.old.view.core.owned (seen_by P.seen root.old)
            (seen_by P.seen root.new) }
        ensures beside { StaysBeside P.seen P.with_seen root.old root.new }
        ensures room { HasRoom root.new.view.core }
        ensures rest { IsAtRest domain.now root.new }
    {
        shut_head(domain, root, self.head);
        shut_tail(domain, root, self.tail);
    }
}

/// Clears the head cell.
fn shut_head<S, P: HasQueue<S>>(domain: &Domain<P>, seat: &mut Seat<P>, head: u32)
    requires rest { IsAtRest domain.now seat.old }
    requires room { HasRoom seat.old.view.core }
    requires head { head ≡ (P.part domain.now.protocol).head }
    requires there { head < domain.now.shape.cells }
    requires alone { IsAlone seat.old.view }
    requires laid { CanShut (P.seen seat.old.view.client) }
    ensures stores { Stores P.Kind.fits (as_part P.part domain.now)
        (shut_head_next (ends_of (as_part P.part domain.now)))
        TellsNothing (Cell (P.part domain.now.protocol).head) None (seen_by P.seen seat.old)
        (seen_by P.seen seat.new) }
    ensures client { (P.seen seat.new.view.client)
        ≡ half_shut_in (ends_of (as_part P.part domain.now)) (seen_by P.seen seat.old)
        (P.seen seat.old.view.client) }
    ensures alone { IsAlone seat.new.view }
    ensures makes { seat.new.view.core.makes ≡ seat.old.view.core.makes }
    ensures leaves { Leaves seat.old.view.core.owned (seen_by P.seen seat.old)
        (seen_by P.seen seat.new) }
    ensures beside_part { HasBeside P.with_seen first_view seat.old seat.new }
    ensures room { HasRoom seat.new.view.core }
    ensures rest { IsAtRest domain.now seat.new }
{
    // The question tells that a seat which is alone knows the whole state, and so what is left.
    let _alone = domain.alone(seat);
    store::<QueueLaw, S, P, _>(domain, seat, Place::Cell(head), None, ShutHead);
}

/// Clears the tail cell.
fn shut_tail<S, P: HasQueue<S>>(domain: &Domain<P>, seat: &mut Seat<P>, tail: u32)
    requires rest { IsAtRest domain.now seat.old }
    requires room { HasRoom seat.old.view.core }
    requires tail { tail ≡ (P.part domain.now.protocol).tail }
    requires there { tail < domain.now.shape.cells }
    requires alone { IsAlone seat.old.view }
    requires half { (P.seen seat.old.view.client).stand.laid ≡ 3 }
    ensures stores { Stores P.Kind.fits (as_part P.part domain.now) shut_tail_next TellsNothing
        (Cell (P.part domain.now.protocol).tail) None (seen_by P.seen seat.old)
        (seen_by P.seen seat.new) }
    ensures client { (P.seen seat.new.view.client) ≡ record (P.seen seat.old.view.client) {
      stand = record (P.seen seat.old.view.client).stand { laid = 4 };
    } }
    ensures makes { seat.new.view.core.makes ≡ seat.old.view.core.makes }
    ensures leaves { Leaves seat.old.view.core.owned (seen_by P.seen seat.old)
        (seen_by P.seen seat.new) }
    ensures beside_part { HasBeside P.with_seen first_view seat.old seat.new }
    ensures room { HasRoom seat.new.view.core }
    ensures rest { IsAtRest domain.now seat.new }
{
    let _alone = domain.alone(seat);
    store::<QueueLaw, S, P, _>(domain, seat, Place::Cell(tail), None, ShutTail);
}
