//! An observer that is put into the cell of its id.
ghost use Rattle.std.specs.Prelude.{◌≡◌, ◌<◌, ◌↔◌, IfOk, IsErr, OnErr};
ghost use Rattle.part_calls.specs.control_word.Resting.{IsSpent};
ghost use Rattle.part_calls.specs.domain_rule.Views.{object_in};
ghost use Rattle.part_calls.specs.plain_state.Lists.{times};
ghost use Rattle.weak_watch.specs.Keeping.{Keeps, one_by};
ghost use Rattle.weak_watch.specs.Subjects.{HasId, IsReady, news_fits, seen, watch_in, words};
ghost use Rattle.weak_watch.specs.Subscribing.{SetsCell, subscribed_in};

use crate::cells::cell_of;
use crate::subject::Subject;
use watch_protocol::{NewsLaw, Right, SubscribeObserver, WatchLaw};
use weak_part_calls::{Domain, Seat, Spent, Strong, WeakPlace, store_weak, weaken};

/// Puts a weak reference to an observer into the cell of its id, which is the seat's. What the cell held is retired.
/// `Spent` exactly where the seat has no add left, and then nothing has changed. One add.
pub(crate) fn set_cell(
    subject: &Subject,
    domain: &Domain<NewsLaw>,
    seat: &mut Seat<NewsLaw>,
    id: u32,
    observer: &Strong,
) -> Result<(), Spent>
    requires ready { IsReady domain.now subject.now seat.old }
    requires own { HasId domain.now id seat.old }
    requires owned { 0 < times observer.now.slot seat.old.view.core.owned }
    requires object { (object_in seat.old.view observer.now.slot).payload ≡ words 1 id }
    ensures sets { IfOk result (λ done. SetsCell news_fits (watch_in domain.now) id
        observer.now.slot (seen seat.old) (seen seat.new)) }
    ensures queue { seat.new.view.client.0 ≡ seat.old.view.client.0 }
    ensures noted { IfOk result (λ done. seat.new.view.client.1
        ≡ subscribed_in id observer.now.slot (seen seat.old) seat.old.view.client.1) }
    ensures spent { IsErr result ↔ IsSpent seat.old.view.core }
    ensures refused { OnErr result (seat.new ≡ seat.old) }
    ensures keeps { Keeps 0 (one_by result) seat.old.view.core.owned seat.old.view.core.weaks
        seat.old seat.new }
    ensures ready { IsReady domain.now subject.now seat.new }
{
    let weak = weaken::<WatchLaw, Right, NewsLaw>(domain, seat, observer)?;
    let deed = SubscribeObserver {
        id,
        slot: observer.slot(),
    };
    let place = WeakPlace::Cell(cell_of(subject, domain, id));
    store_weak::<WatchLaw, Right, NewsLaw, SubscribeObserver>(
        domain,
        seat,
        place,
        Some(weak),
        deed,
    );
    Ok(())
}
