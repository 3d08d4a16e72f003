//! Whether the observer of an id lives.
ghost use Rattle.std.specs.Prelude.{◌≡◌, ◌<◌, IfOk, OnErr};
ghost use Rattle.part_calls.specs.control_word.Resting.{IsSpent};
ghost use Rattle.weak_watch.specs.Finding.{HasReached, Reaches, adds_to_reach, with_reached};
ghost use Rattle.weak_watch.specs.Keeping.{Keeps};
ghost use Rattle.weak_watch.specs.Subjects.{IsReady, news_fits, seen, watch_in};

use crate::finding::find;
use crate::reached::Reached;
use crate::subject::Subject;
use part_calls::Still;
use std::sync::Wait;
use watch_protocol::{NewsLaw, Right, WatchLaw};
use weak_part_calls::{Domain, Seat, Spent, UpgradeError, drop_weak, upgrade};

/// A strong reference to the observer in the cell of an id. `Absent` exactly where the cell was null at the last look
/// of this call, and `Ended` exactly where this call's own add on what the cell referred to found no strong reference
/// to it. `Spent` exactly where an increment found the adds of the seat used up. Nothing is put into a place. It may
/// wait for other threads. No add where it is absent, and two where not.
pub(crate) fn reach<R: Wait>(
    subject: &Subject,
    rt: &R,
    domain: &Domain<NewsLaw>,
    seat: &mut Seat<NewsLaw>,
    id: u32,
) -> Result<Reached, Spent>
    requires ready { IsReady domain.now subject.now seat.old }
    requires inside { id < subject.now.cells }
    ensures reached { IfOk result (λ found. Reaches news_fits (watch_in domain.now) id found
        (seen seat.old) (seen seat.new)) }
    ensures has { IfOk result (λ found. HasReached id found seat.new) }
    ensures spent { OnErr result (IsSpent seat.new.view.core) }
    ensures client { seat.new.view.client ≡ seat.old.view.client }
    ensures keeps { Keeps 0 (adds_to_reach result)
        (with_reached result seat.old.view.core.owned) seat.old.view.core.weaks
        seat.old seat.new }
    ensures ready { IsReady domain.now subject.now seat.new }
{
    let Some(weak) = find(subject, rt, domain, seat, id)? else {
        return Ok(Reached::Absent);
    };
    match upgrade::<WatchLaw, Right, NewsLaw, Still>(domain, seat, &weak, Still) {
        Ok(observer) => {
            drop_weak::<WatchLaw, Right, NewsLaw>(domain, seat, weak);
            Ok(Reached::Alive(observer))
        }
        Err(UpgradeError::Ended) => {
            drop_weak::<WatchLaw, Right, NewsLaw>(domain, seat, weak);
            Ok(Reached::Ended)
        }
        Err(UpgradeError::Spent) => {
            drop_weak::<WatchLaw, Right, NewsLaw>(domain, seat, weak);
            Err(Spent)
        }
    }
}
