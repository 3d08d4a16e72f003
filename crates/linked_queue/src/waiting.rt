//! Calls that try again until no other seat is quicker.
ghost use Rattle.std.specs.Prelude.{◌≡◌, ◌<◌, IfOk, IfSome, OnErr, None};
ghost use Rattle.queue_protocol.specs.plain_state.Lists.{times};
ghost use Rattle.slot_store.specs.core_events.Steps.{HasRoom};
ghost use Rattle.part_calls.specs.atomic_shared.Places.{named};
ghost use Rattle.slot_store.specs.control_word.Resting.{IsAtRest, IsSpent};
ghost use Rattle.part_calls.specs.Parts.{StaysBeside, as_part, seen_by};
ghost use Rattle.linked_queue.specs.Attaching.{attached_in};
ghost use Rattle.linked_queue.specs.Leaving.{Leaves, found_by};
ghost use Rattle.linked_queue.specs.Losses.{LosesAtHead};
ghost use Rattle.linked_queue.specs.Pops.{Pops};
ghost use Rattle.linked_queue.specs.Queues.{IsAttached, IsQueueOf};
ghost use Rattle.linked_queue.specs.Waits.{AttachesAtLast, IsWhyShort, PopsAtLast};

use crate::queue::{LinkedQueue, PopError};
use crossbeam_utils::Backoff;
use part_calls::Spent;
use queue_protocol::HasQueue;
use slot_store::{Domain, Seat, Strong};
use std::sync::Wait;

impl LinkedQueue {
    /// Looks at the head cell until it finds a slot there, so it may wait for seat 0, which lays the queue. Then the
    /// seat is attached, and may push and pop. One step for each look, and no make.
    pub fn attach<S, P: HasQueue<S>, R: Wait>(&self, rt: &R, domain: &Domain<P>, seat: &mut Seat<P>)
        requires rest { IsAtRest domain.now seat.old }
        requires room { HasRoom seat.old.view.core }
        requires queue { IsQueueOf self.now.head self.now.tail (as_part P.part domain.now) }
        ensures looks { AttachesAtLast P.Kind.fits (as_part P.part domain.now)
            (seen_by P.seen seat.old) (seen_by P.seen seat.new) }
        ensures attached { P.seen seat.new.view.client
            ≡ attached_in (P.seen seat.old.view.client) }
        ensures leaves { Leaves seat.old.view.core.owned (seen_by P.seen seat.old)
            (seen_by P.seen seat.new) }
        ensures makes { seat.new.view.core.makes ≡ seat.old.view.core.makes }
        ensures beside { StaysBeside P.seen P.with_seen seat.old seat.new }
        ensures room { HasRoom seat.new.view.core }
        ensures rest { IsAtRest domain.now seat.new }
    {
        let backoff = Backoff::new();
        for _try in rt.forever() {
            if self.try_attach(domain, seat) {
                return;
            }
            backoff.spin();
        }
        unreachable!()
    }

    /// Takes the first item off the queue, and answers a reference to it. It tries again as long as another seat is
    /// quicker, so it may wait for other threads. `None` only where nothing was linked behind the head's node at a step
    /// of this call. `Spent` only where no add is left: an increment of the last try found none, and at most three were
    /// left at the entry, or another try was lost before. Then nothing is taken, and the seat owns what it owned. No
    /// make. At most 29 steps and two collects for each try.
    pub fn pop<S, P: HasQueue<S>, R: Wait>(
        &self,
        rt: &R,
        domain: &Domain<P>,
        seat: &mut Seat<P>,
    ) -> Result<Option<Strong>, Spent>
        requires rest { IsAtRest domain.now seat.old }
        requires room { HasRoom seat.old.view.core }
        requires queue { IsQueueOf self.now.head self.now.tail (as_part P.part domain.now) }
        requires attached { IsAttached (P.seen seat.old.view.client) }
        ensures events { IfOk result (λ found. PopsAtLast P.Kind.fits (as_part P.part domain.now)
            (named found) (seen_by P.seen seat.old) (seen_by P.seen seat.new)) }
        ensures popped { Pops (found_by result) (seen_by P.seen seat.old)
            (seen_by P.seen seat.new) }
        ensures owned { IfOk result (λ found. IfSome found (λ item.
            0 < times item.slot seat.new.view.core.owned)) }
        ensures why { OnErr result (IsSpent seat.new.view.core) }
        ensures short { OnErr result (IsWhyShort 3
            (LosesAtHead P.Kind.fits (as_part P.part domain.now) None) (seen_by P.seen seat.old)
            (seen_by P.seen seat.new)) }
        ensures makes { seat.new.view.core.makes ≡ seat.old.view.core.makes }
        ensures attached { IsAttached (P.seen seat.new.view.client) }
        ensures beside { StaysBeside P.seen P.with_seen seat.old seat.new }
        ensures room { HasRoom seat.new.view.core }
        ensures rest { IsAtRest domain.now seat.new }
    {
        let backoff = Backoff::new();
        for _try in rt.forever() {
            match self.try_pop(domain, seat) {
                Ok(found) => return Ok(found),
                Err(PopError::Spent) => return Err(Spent),
                Err(PopError::Again { .. }) => backoff.spin(),
            }
        }
        unreachable!()
    }
}
