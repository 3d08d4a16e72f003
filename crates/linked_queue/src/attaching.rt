//! How a seat comes to take part in a queue.
ghost use Rattle.std.specs.Prelude.{◌≡◌, ◌<◌, if◌then◌else◌};
ghost use Rattle.slot_store.specs.core_events.Steps.{HasRoom};
ghost use Rattle.slot_store.specs.control_word.Resting.{IsAtRest};
ghost use Rattle.part_calls.specs.Parts.{HasBeside, StaysBeside, as_part, seen_by};
ghost use Rattle.queue_protocol.specs.queue_law.Views.{first_view};
ghost use Rattle.linked_queue.specs.Attaching.{LooksAtHead, attached_in, is_slot};
ghost use Rattle.linked_queue.specs.Leaving.{Leaves};
ghost use Rattle.linked_queue.specs.Queues.{IsQueueOf};

use crate::queue::LinkedQueue;
use part_calls::look;
use queue_protocol::{AttachSeat, HasQueue, QueueLaw};
use slot_store::{Domain, EventPlace, Outcome, Seat, SlotId};

impl LinkedQueue {
    /// Whether the queue is laid, by one look at the head cell: true exactly where that found a slot, and the seat is
    /// attached then, so it may push and pop. One step.
    pub fn try_attach<S, P: HasQueue<S>>(&self, domain: &Domain<P>, seat: &mut Seat<P>) -> bool
        requires rest { IsAtRest domain.now seat.old }
        requires queue { IsQueueOf self.now.head self.now.tail (as_part P.part domain.now) }
        ensures looks { (found : _) × (result ≡ is_slot found)
            × LooksAtHead P.Kind.fits (as_part P.part domain.now) found (seen_by P.seen seat.old)
            (seen_by P.seen seat.new) }
        ensures attached { (P.seen seat.new.view.client)
            ≡ (if result then attached_in (P.seen seat.old.view.client)
            else (P.seen seat.old.view.client)) }
        ensures leaves { Leaves seat.old.view.core.owned (seen_by P.seen seat.old)
            (seen_by P.seen seat.new) }
        ensures makes { seat.new.view.core.makes ≡ seat.old.view.core.makes }
        ensures beside { StaysBeside P.seen P.with_seen seat.old seat.new }
        ensures room { HasRoom seat.old.view.core → HasRoom seat.new.view.core }
        ensures rest { IsAtRest domain.now seat.new }
    {
        look_at_head(domain, seat, self.head).is_some()
    }
}

/// What the head cell holds. Where it isn't null the seat is attached.
fn look_at_head<S, P: HasQueue<S>>(
    domain: &Domain<P>,
    seat: &mut Seat<P>,
    head: u32,
) -> Option<SlotId>
    requires rest { IsAtRest domain.now seat.old }
    requires head { head ≡ (P.part domain.now.protocol).head }
    requires there { head < domain.now.shape.cells }
    ensures looks { LooksAtHead P.Kind.fits (as_part P.part domain.now) result
        (seen_by P.seen seat.old) (seen_by P.seen seat.new) }
    ensures attached { (P.seen seat.new.view.client)
        ≡ (if is_slot result then attached_in (P.seen seat.old.view.client)
        else (P.seen seat.old.view.client)) }
    ensures makes { seat.new.view.core.makes ≡ seat.old.view.core.makes }
    ensures leaves { Leaves seat.old.view.core.owned (seen_by P.seen seat.old)
        (seen_by P.seen seat.new) }
    ensures beside_part { HasBeside P.with_seen first_view seat.old seat.new }
    ensures room { HasRoom seat.old.view.core → HasRoom seat.new.view.core }
    ensures rest { IsAtRest domain.now seat.new }
{
    match look::<QueueLaw, S, P, _>(domain, seat, EventPlace::Cell(head), AttachSeat) {
        Outcome::Found(found) => found,
        _ => None,
    }
}
