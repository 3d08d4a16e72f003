//! The fate of one id.
ghost use Rattle.std.specs.Prelude.{ℕ, ◌≡◌, ◌<◌, IfErr, IfOk, OnErr};
ghost use Rattle.weak_watch.specs.Keeping.{Keeps};
ghost use Rattle.weak_watch.specs.Fates.{CanPublish, HasFate, IsWhyNoFate};
ghost use Rattle.weak_watch.specs.Sending.{IsUnsent, beside_sending};

use crate::fates::Fate;
use crate::reached::Reached;
use crate::reaching::reach;
use crate::sending::send;
use crate::subject::Subject;
use hand_queues::HandQueue;
use part_calls::MakeError;
use std::sync::Wait;
use watch_protocol::NewsLaw;
use weak_part_calls::{Domain, Seat};

/// Sends a delivery of this event to the observer of an id, if it lives, and tells its fate. It is refused where an
/// increment found the adds of the seat used up, and with the causes of `make` and of a push; then nothing is pushed,
/// and what was made or held is given up. Two makes at most. It may wait for other threads.
pub(crate) fn publish_to<Q: HandQueue, R: Wait>(
    subject: &Subject,
    rt: &R,
    domain: &Domain<NewsLaw>,
    seat: &mut Seat<NewsLaw>,
    queue: &Q,
    id: u32,
    event: u64,
) -> Result<Fate, MakeError>
    requires ready { CanPublish (Q.is_on queue.now) domain.now subject.now seat.old }
    requires inside { id < subject.now.cells }
    ensures fate { IfOk result (λ fate. HasFate domain.now event id fate seat.old seat.new) }
    ensures why { IfErr result (λ why. IsWhyNoFate domain.now event id why seat.old seat.new) }
    ensures unsent { OnErr result (IsUnsent seat.old seat.new) }
    ensures beside { beside_sending seat.new.view.client.1
        ≡ beside_sending seat.old.view.client.1 }
    ensures keeps { (n : ℕ) × Keeps 2 n seat.old.view.core.owned seat.old.view.core.weaks
        seat.old seat.new }
    ensures ready { CanPublish (Q.is_on queue.now) domain.now subject.now seat.new }
{
    match reach(subject, rt, domain, seat, id) {
        Ok(Reached::Absent) => Ok(Fate::Absent),
        Ok(Reached::Ended) => Ok(Fate::Ended),
        Ok(Reached::Alive(observer)) => match send(rt, domain, seat, queue, id, event, observer) {
            Ok(()) => Ok(Fate::Sent),
            Err(why) => Err(why),
        },
        Err(_) => Err(MakeError::AddsSpent),
    }
}
