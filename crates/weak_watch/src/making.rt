//! An observer that stands in no cell yet.
ghost use Rattle.std.specs.Prelude.{◌≡◌, ◌<◌, IfErr, IfOk};
ghost use Rattle.part_calls.specs.control_word.Resting.{IsAtRest};
ghost use Rattle.part_calls.specs.core_events.Steps.{HasRoom};
ghost use Rattle.part_calls.specs.domain_rule.Views.{object_in};
ghost use Rattle.part_calls.specs.plain_state.Lists.{times};
ghost use Rattle.weak_watch.specs.Keeping.{Keeps, one_by, with_answer};
ghost use Rattle.weak_watch.specs.Subjects.{news_fits, seen, watch_in, words};
ghost use Rattle.weak_watch.specs.Subscribing.{CanMake, IsWhyUnmade, MakesObserver};

use crate::payloads::payload_with;
use part_calls::{MakeError, make};
use watch_protocol::{MakeObserver, NewsLaw, Right, WatchLaw};
use weak_part_calls::{Domain, Seat, Strong};

/// Makes an observer with this id. It is refused as `make` is. One make and one add.
pub(crate) fn make_observer(
    domain: &Domain<NewsLaw>,
    seat: &mut Seat<NewsLaw>,
    id: u32,
) -> Result<Strong, MakeError>
    requires rest { IsAtRest domain.now seat.old }
    requires room { HasRoom seat.old.view.core }
    ensures made { IfOk result (λ observer. MakesObserver news_fits (watch_in domain.now) id
        observer.slot (seen seat.old) (seen seat.new)) }
    ensures object { IfOk result (λ observer.
        (object_in seat.new.view observer.slot).payload ≡ words 1 id) }
    ensures can { IfOk result (λ observer. CanMake seat.old.view.core) }
    ensures why { IfErr result (λ why. IsWhyUnmade news_fits (watch_in domain.now) why
        (seen seat.old) (seen seat.new)) }
    ensures owned { IfOk result (λ observer. 0 < times observer.slot seat.new.view.core.owned) }
    ensures client { seat.new.view.client ≡ seat.old.view.client }
    ensures keeps { Keeps (one_by result) (one_by result)
        (with_answer result seat.old.view.core.owned) seat.old.view.core.weaks
        seat.old seat.new }
    ensures room { HasRoom seat.new.view.core }
    ensures rest { IsAtRest domain.now seat.new }
{
    let payload = payload_with(1, id as u64);
    make::<WatchLaw, Right, NewsLaw, MakeObserver>(domain, seat, &payload, MakeObserver)
}
