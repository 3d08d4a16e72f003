//! What the cell of an id holds.
ghost use Rattle.std.specs.Prelude.{ℕ, ◌≡◌, ◌<◌, ◌↔◌, Err, IfOk, IfSome, IsErr};
ghost use Rattle.part_calls.specs.control_word.Resting.{IsSpent};
ghost use Rattle.part_calls.specs.domain_rule.Views.{object_in};
ghost use Rattle.part_calls.specs.plain_state.Lists.{times};
ghost use Rattle.weak_part_calls.specs.atomic_weak.Places.{named};
ghost use Rattle.weak_part_calls.specs.counted_handles.declared.refusal.LoadError.TheVariants as refused;
ghost use Rattle.watch_protocol.specs.watch_law.Payloads.{IsObserverOf};
ghost use Rattle.weak_watch.specs.Finding.{FindsAtLast, FindsIn, found_by};
ghost use Rattle.weak_watch.specs.Keeping.{Keeps, count_of, with_more};
ghost use Rattle.weak_watch.specs.Subjects.{IsReady, news_fits, seen, watch_in};

use crate::cells::cell_of;
use crate::subject::Subject;
use crossbeam_utils::Backoff;
use std::sync::Wait;
use watch_protocol::{FindObserver, NewsLaw, Right, WatchLaw};
use weak_part_calls::{Domain, LoadError, Seat, Spent, Weak, WeakPlace, try_load_weak};

/// A weak reference to what the cell of an id holds. `Spent` exactly where the seat has no add left. It tries again as
/// long as the cell changes between its look and its check, so it may wait for other threads. At most five steps for
/// each try, and one add where a handle is answered.
pub(crate) fn find<R: Wait>(
    subject: &Subject,
    rt: &R,
    domain: &Domain<NewsLaw>,
    seat: &mut Seat<NewsLaw>,
    id: u32,
) -> Result<Option<Weak>, Spent>
    requires ready { IsReady domain.now subject.now seat.old }
    requires inside { id < subject.now.cells }
    ensures found { IfOk result (λ found. FindsAtLast news_fits (watch_in domain.now) id
        (named found) (seen seat.old) (seen seat.new)) }
    ensures observer { IfOk result (λ found. IfSome found (λ weak.
        IsObserverOf id (object_in seat.new.view weak.slot).payload)) }
    ensures owned { IfOk result (λ found.
        IfSome found (λ weak. 0 < times weak.slot seat.new.view.core.weaks)) }
    ensures spent { IsErr result ↔ IsSpent seat.old.view.core }
    ensures client { seat.new.view.client ≡ seat.old.view.client }
    ensures keeps { Keeps 0 (count_of (found_by result)) seat.old.view.core.owned
        (with_more (found_by result) seat.old.view.core.weaks) seat.old seat.new }
    ensures ready { IsReady domain.now subject.now seat.new }
{
    let backoff = Backoff::new();
    for _try in rt.forever() {
        match try_find(subject, domain, seat, id) {
            Ok(found) => return Ok(found),
            Err(LoadError::Spent) => return Err(Spent),
            Err(LoadError::Moved { .. }) => backoff.spin(),
        }
    }
    unreachable!()
}

/// The same, in one try: `Moved` where the cell changed after it was looked at.
fn try_find(
    subject: &Subject,
    domain: &Domain<NewsLaw>,
    seat: &mut Seat<NewsLaw>,
    id: u32,
) -> Result<Option<Weak>, LoadError>
    requires ready { IsReady domain.now subject.now seat.old }
    requires inside { id < subject.now.cells }
    ensures found { IfOk result (λ found. FindsIn news_fits (watch_in domain.now) id
        (named found) (seen seat.old) (seen seat.new)) }
    ensures observer { IfOk result (λ found. IfSome found (λ weak.
        IsObserverOf id (object_in seat.new.view weak.slot).payload)) }
    ensures owned { IfOk result (λ found.
        IfSome found (λ weak. 0 < times weak.slot seat.new.view.core.weaks)) }
    ensures spent { (result ≡ Err refused.Spent) ↔ IsSpent seat.old.view.core }
    ensures client { seat.new.view.client ≡ seat.old.view.client }
    ensures keeps { Keeps 0 (count_of (found_by result)) seat.old.view.core.owned
        (with_more (found_by result) seat.old.view.core.weaks) seat.old seat.new }
    ensures ready { IsReady domain.now subject.now seat.new }
{
    let place = WeakPlace::Cell(cell_of(subject, domain, id));
    try_load_weak::<WatchLaw, Right, NewsLaw, FindObserver>(
        domain,
        seat,
        place,
        FindObserver { id },
    )
}
