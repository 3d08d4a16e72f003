//! A delivery that goes on the queue.
ghost use Rattle.std.specs.Prelude.{ℕ, ◌≡◌, ◌<◌, IfErr, IfOk, OnErr};
ghost use Rattle.control_word.specs.core_events.Views.{without};
ghost use Rattle.control_word.specs.plain_state.Lists.{times};
ghost use Rattle.hand_queues.specs.Pushes.{PushesAtLastIn, deeds_of};
ghost use Rattle.linked_queue.specs.Pops.{item_in};
ghost use Rattle.linked_queue.specs.Pushes.{pushed_too};
ghost use Rattle.watch_protocol.specs.watch_law.Pushes.{MayPush};
ghost use Rattle.weak_watch.specs.Keeping.{Keeps};
ghost use Rattle.weak_watch.specs.Subjects.{news_fits};
ghost use Rattle.weak_watch.specs.Queues.{CanSend};
ghost use Rattle.weak_watch.specs.Sending.{IsWhyUnpushed, pushing, queue_in};

use hand_queues::HandQueue;
use part_calls::{Left, MakeError};
use std::sync::Wait;
use watch_protocol::{NewsLaw, Right, WatchLaw};
use weak_part_calls::{Domain, Seat, Strong, drop_strong};

/// Pushes a delivery that the seat may push, and gives the seat's reference to it. It is refused as a push is; then
/// nothing is pushed, and the delivery is given up. One make at most. It may wait for other threads.
pub(crate) fn push_delivery<Q: HandQueue, R: Wait>(
    rt: &R,
    domain: &Domain<NewsLaw>,
    seat: &mut Seat<NewsLaw>,
    queue: &Q,
    delivery: Strong,
) -> Result<(), MakeError>
    requires ready { CanSend (Q.is_on queue.now) domain.now seat.old }
    requires owned { 0 < times delivery.slot seat.old.view.core.owned }
    requires may { MayPush seat.old.view.client (item_in (pushing seat.old) delivery.slot) }
    ensures pushes { IfOk result (λ done. PushesAtLastIn news_fits (queue_in domain.now)
        domain.now.protocol.pair.left.form delivery.slot (pushing seat.old) (pushing seat.new)) }
    ensures pushed { IfOk result (λ done. deeds_of seat.new.view.client.0
        ≡ pushed_too (item_in (pushing seat.old) delivery.slot)
        (deeds_of seat.old.view.client.0)) }
    ensures unpushed { OnErr result (deeds_of seat.new.view.client.0
        ≡ deeds_of seat.old.view.client.0) }
    ensures why { IfErr result (λ why.
        IsWhyUnpushed domain.now delivery.slot why seat.old seat.new) }
    ensures beside { seat.new.view.client.1 ≡ seat.old.view.client.1 }
    ensures keeps { (n : ℕ) × Keeps 1 n (without delivery.slot seat.old.view.core.owned)
        seat.old.view.core.weaks seat.old seat.new }
    ensures ready { CanSend (Q.is_on queue.now) domain.now seat.new }
{
    match queue.push::<Left, NewsLaw, R>(rt, domain, seat, delivery) {
        Ok(()) => Ok(()),
        Err(refused) => {
            drop_strong::<WatchLaw, Right, NewsLaw>(domain, seat, refused.back);
            Err(refused.why)
        }
    }
}
