//! A seat receives a delivery.
ghost use Rattle.std.specs.Prelude.{ℕ, IfErr, IfOk, OnErr, ◌≡◌};
ghost use Rattle.control_word.specs.Resting.{IsSpent};
ghost use Rattle.linked_queue.specs.declared.queue.PopError.TheVariants as unpopped;
ghost use Rattle.weak_watch.specs.Keeping.{Keeps};
ghost use Rattle.weak_watch.specs.Queues.{CanSend};
ghost use Rattle.weak_watch.specs.Fates.{CanPublish};
ghost use Rattle.weak_watch.specs.Receiving.{HasReceived, OnlyPasses, OnlyReads, PopsNone, Receives, ReceivesAtLast, received_as, with_delivery, with_tried};

use crate::delivery::{Delivery, Received};
use crate::opening::open;
use crate::subject::Subject;
use crate::taking::take;
use crossbeam_utils::Backoff;
use hand_queues::HandQueue;
use linked_queue::PopError;
use std::sync::Wait;
use watch_protocol::{NewsLaw, Right, WatchLaw};
use weak_part_calls::{Domain, Seat, Spent, drop_strong};

impl Subject {
    /// Takes the first delivery off the queue, and answers its event, and a reference to the observer that it is to,
    /// with its id; the delivery itself is given up. An item that is no delivery, or in which no observer was found,
    /// is taken off the queue and given up, and the next one tried. The field with the observer is read before the
    /// item is taken. `None` only where nothing was linked behind the head's node at a step of this call, and `Spent`
    /// only where no add is left; then no more was taken than the items that were given up. Of what the seat knows of
    /// observers nothing changes but what it read. No make. It tries again as long as another seat is quicker, so it
    /// may wait for other threads.
    pub fn receive<Q: HandQueue, R: Wait>(
        &self,
        rt: &R,
        domain: &Domain<NewsLaw>,
        seat: &mut Seat<NewsLaw>,
        queue: &Q,
    ) -> Result<Option<Delivery>, Spent>
        requires ready { CanPublish (Q.is_on queue.now) domain.now self.now seat.old }
        ensures received { IfOk result (λ answer.
            ReceivesAtLast domain.now answer seat.old seat.new) }
        ensures has { IfOk result (λ answer. HasReceived (received_as answer) seat.new) }
        ensures spent { OnErr result
            (IsSpent seat.new.view.core × OnlyPasses domain.now seat.old seat.new) }
        ensures beside { OnlyReads seat.old seat.new }
        ensures keeps { (n : ℕ) × Keeps 0 n (with_delivery result seat.old.view.core.owned)
            seat.old.view.core.weaks seat.old seat.new }
        ensures ready { CanPublish (Q.is_on queue.now) domain.now self.now seat.new }
    {
        let backoff = Backoff::new();
        for _try in rt.forever() {
            match try_receive(domain, seat, queue) {
                Ok(Received::Nothing) => return Ok(None),
                Ok(Received::Delivery(delivery)) => return Ok(Some(delivery)),
                Ok(Received::Passed) => {}
                Err(PopError::Spent) => return Err(Spent),
                Err(PopError::Again { .. }) => backoff.spin(),
            }
        }
        unreachable!()
    }
}

/// Takes the first item off the queue, in one try. If it is a delivery with an observer it is answered, if not it is
/// given up. `Nothing`, `Again` and `Spent` as a try of a pop has them; then nothing is taken. No make.
pub(crate) fn try_receive<Q: HandQueue>(
    domain: &Domain<NewsLaw>,
    seat: &mut Seat<NewsLaw>,
    queue: &Q,
) -> Result<Received, PopError>
    requires ready { CanSend (Q.is_on queue.now) domain.now seat.old }
    ensures receives { IfOk result (λ got. Receives domain.now got seat.old seat.new) }
    ensures has { IfOk result (λ got. HasReceived got seat.new) }
    ensures none { OnErr result (PopsNone seat.old seat.new) }
    ensures spent { IfErr result (λ error. error ≡ unpopped.Spent → IsSpent seat.new.view.core) }
    ensures beside { OnlyReads seat.old seat.new }
    ensures keeps { (n : ℕ) × Keeps 0 n (with_tried result seat.old.view.core.owned)
        seat.old.view.core.weaks seat.old seat.new }
    ensures ready { CanSend (Q.is_on queue.now) domain.now seat.new }
{
    match take(domain, seat, queue) {
        Ok(None) => Ok(Received::Nothing),
        Ok(Some((item, content))) => match content {
            Some(content) => Ok(open(domain, seat, item, content)),
            None => {
                drop_strong::<WatchLaw, Right, NewsLaw>(domain, seat, item);
                Ok(Received::Passed)
            }
        },
        Err(error) => Err(error),
    }
}
