//! A publication of an event.
ghost use Rattle.std.specs.Prelude.{ℕ, ◌≡◌, ◌<◌, ◌*◌, IfErr, OnOk, length};
ghost use Rattle.weak_watch.specs.Keeping.{Keeps};
ghost use Rattle.weak_watch.specs.Fates.{CanPublish, Publishes, StopsAt};
ghost use Rattle.weak_watch.specs.Sending.{beside_sending};

use crate::fates::{Fate, PublishRefused};
use crate::publishing_to::publish_to;
use crate::subject::Subject;
use hand_queues::HandQueue;
use std::sync::Wait;
use watch_protocol::NewsLaw;
use weak_part_calls::{Domain, Seat};

impl Subject {
    /// Sends a delivery of this event to the observer of each id that lives, in ascending order of ids, and writes down
    /// each id's fate. It stops at the first id for which an increment found the adds of the seat used up, or `make` or
    /// a push was refused: the ids below it have their fates, for it and the others nothing was pushed, and what was
    /// made or held is given up. Of what the seat knows of observers nothing changes but what it made and addressed.
    /// Two makes at most for each id. It may wait for other threads.
    pub fn publish<Q: HandQueue, R: Wait>(
        &self,
        rt: &R,
        domain: &Domain<NewsLaw>,
        seat: &mut Seat<NewsLaw>,
        queue: &Q,
        event: u64,
        fates: &mut [Fate],
    ) -> Result<(), PublishRefused>
        requires ready { CanPublish (Q.is_on queue.now) domain.now self.now seat.old }
        requires each { length fates.old ≡ self.now.cells }
        ensures published { OnOk result
            (Publishes domain.now event self.now.cells fates.new seat.old seat.new) }
        ensures refused { IfErr result (λ stop. (stop.at < self.now.cells)
            × StopsAt domain.now event stop.at stop.why fates.new seat.old seat.new) }
        ensures beside { beside_sending seat.new.view.client.1
            ≡ beside_sending seat.old.view.client.1 }
        ensures each { length fates.new ≡ length fates.old }
        ensures keeps { (n : ℕ) × Keeps (2 * self.now.cells) n seat.old.view.core.owned
            seat.old.view.core.weaks seat.old seat.new }
        ensures ready { CanPublish (Q.is_on queue.now) domain.now self.now seat.new }
    {
        for id in 0..self.cells {
            match publish_to(self, rt, domain, seat, queue, id, event) {
                Ok(fate) => fates[id as usize] = fate,
                Err(why) => return Err(PublishRefused { why, at: id }),
            }
        }
        Ok(())
    }
}
