//! A seat subscribes an observer.
ghost use Rattle.std.specs.Prelude.{◌≡◌, ◌<◌, ◌+◌, IfErr, IfOk, OnErr};
ghost use Rattle.part_calls.specs.plain_state.Lists.{times};
ghost use Rattle.weak_watch.specs.Keeping.{Keeps, with_answer};
ghost use Rattle.weak_watch.specs.Subjects.{HasId, IsReady, news_fits, seen, watch_in};
ghost use Rattle.weak_watch.specs.Subscribing.{IsWhyNot, Subscribes, subscribed_in};

use crate::making::make_observer;
use crate::setting::set_cell;
use crate::subject::Subject;
use part_calls::MakeError;
use watch_protocol::{NewsLaw, Right, WatchLaw};
use weak_part_calls::{Domain, Seat, Strong, drop_strong};

impl Subject {
    /// Makes an observer with this id, which is the seat's, and puts a weak reference to it into the cell of the id.
    /// What the cell held is retired. `MakesSpent` and `Full` as `make` has them, and `AddsSpent` exactly where an
    /// increment found the adds of the seat used up: no add was left, or the one that was left made the observer, which
    /// is given up then. Where it is refused the seat has put nothing into a cell, and owns what it owned. One make and
    /// two adds.
    pub fn subscribe(
        &self,
        domain: &Domain<NewsLaw>,
        seat: &mut Seat<NewsLaw>,
        id: u32,
    ) -> Result<Strong, MakeError>
        requires ready { IsReady domain.now self.now seat.old }
        requires own { HasId domain.now id seat.old }
        ensures subscribed { IfOk result (λ observer. Subscribes news_fits (watch_in domain.now) id
            observer.slot (seen seat.old) (seen seat.new)) }
        ensures noted { IfOk result (λ observer. (0 < times observer.slot seat.new.view.core.owned)
            × (seat.new.view.client ≡ (
              seat.old.view.client.0,
              subscribed_in id observer.slot (seen seat.new) seat.old.view.client.1,
            ))) }
        ensures why { IfErr result (λ why. IsWhyNot news_fits (watch_in domain.now) id why
            (seen seat.old) (seen seat.new)) }
        ensures refused { OnErr result (seat.new.view.client ≡ seat.old.view.client) }
        ensures keeps { Keeps 1 2 (with_answer result seat.old.view.core.owned)
            seat.old.view.core.weaks seat.old seat.new }
        ensures ready { IsReady domain.now self.now seat.new }
    {
        let observer = make_observer(domain, seat, id)?;
        match set_cell(self, domain, seat, id, &observer) {
            Ok(()) => Ok(observer),
            Err(_) => {
                drop_strong::<WatchLaw, Right, NewsLaw>(domain, seat, observer);
                Err(MakeError::AddsSpent)
            }
        }
    }
}
