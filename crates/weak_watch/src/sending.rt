//! A delivery to one observer.
ghost use Rattle.std.specs.Prelude.{ℕ, ◌≡◌, IfErr, IfOk, OnErr};
ghost use Rattle.control_word.specs.core_events.Views.{without};
ghost use Rattle.weak_watch.specs.Keeping.{Keeps};
ghost use Rattle.weak_watch.specs.Queues.{CanSend};
ghost use Rattle.weak_watch.specs.Sending.{HasObserver, IsUnsent, IsWhyUnsent, Sends, beside_sending};

use crate::addressing::address;
use crate::delivering::make_delivery;
use crate::pushing::push_delivery;
use hand_queues::HandQueue;
use part_calls::MakeError;
use std::sync::Wait;
use watch_protocol::{NewsLaw, Right, WatchLaw};
use weak_part_calls::{Domain, Seat, Strong, drop_strong};

/// Makes a delivery of this event, gives it the observer, and pushes it. It is refused with the causes of `make` for
/// the delivery, and of a push; then nothing is pushed, and the observer, or the delivery with it, is given up. Two
/// makes at most. It may wait for other threads.
pub(crate) fn send<Q: HandQueue, R: Wait>(
    rt: &R,
    domain: &Domain<NewsLaw>,
    seat: &mut Seat<NewsLaw>,
    queue: &Q,
    id: u32,
    event: u64,
    observer: Strong,
) -> Result<(), MakeError>
    requires ready { CanSend (Q.is_on queue.now) domain.now seat.old }
    requires observer { HasObserver id observer.slot seat.old }
    ensures sends { IfOk result (λ done.
        Sends domain.now id event observer.slot seat.old seat.new) }
    ensures unsent { OnErr result (IsUnsent seat.old seat.new) }
    ensures beside { beside_sending seat.new.view.client.1
        ≡ beside_sending seat.old.view.client.1 }
    ensures why { IfErr result (λ why.
        IsWhyUnsent domain.now id event observer.slot seat.old seat.new why) }
    ensures keeps { (n : ℕ) × Keeps 2 n (without observer.slot seat.old.view.core.owned)
        seat.old.view.core.weaks seat.old seat.new }
    ensures ready { CanSend (Q.is_on queue.now) domain.now seat.new }
{
    match make_delivery(domain, seat, event) {
        Ok(delivery) => {
            address(domain, seat, &delivery, observer, id, event);
            push_delivery(rt, domain, seat, queue, delivery)
        }
        Err(why) => {
            drop_strong::<WatchLaw, Right, NewsLaw>(domain, seat, observer);
            Err(why)
        }
    }
}
