//! A delivery that is to nobody yet.
ghost use Rattle.std.specs.Prelude.{◌≡◌, IfErr, IfOk, OnErr};
ghost use Rattle.control_word.specs.Resting.{IsAtRest};
ghost use Rattle.control_word.specs.core_events.Steps.{HasRoom};
ghost use Rattle.weak_watch.specs.Keeping.{Keeps, one_by, with_answer};
ghost use Rattle.weak_watch.specs.Subjects.{news_fits, seen, watch_in};
ghost use Rattle.weak_watch.specs.Subscribing.{IsWhyUnmade};
ghost use Rattle.weak_watch.specs.Sending.{HasDelivery, MakesDelivery, made_in};

use crate::payloads::payload_with;
use part_calls::{MakeError, make};
use watch_protocol::{MakeDelivery, NewsLaw, Right, WatchLaw};
use weak_part_calls::{Domain, Seat, Strong};

/// Makes a delivery of this event. It is refused as `make` is. One make and one add.
pub(crate) fn make_delivery(
    domain: &Domain<NewsLaw>,
    seat: &mut Seat<NewsLaw>,
    event: u64,
) -> Result<Strong, MakeError>
    requires rest { IsAtRest domain.now seat.old }
    requires room { HasRoom seat.old.view.core }
    ensures made { IfOk result (λ delivery. MakesDelivery news_fits (watch_in domain.now) event
        delivery.slot (seen seat.old) (seen seat.new)) }
    ensures has { IfOk result (λ delivery. HasDelivery event delivery.slot seat.new
        seat.new.view.client.1) }
    ensures noted { IfOk result (λ delivery. seat.new.view.client ≡ (
      seat.old.view.client.0,
      made_in delivery.slot seat.new seat.old.view.client.1,
    )) }
    ensures why { IfErr result (λ why. IsWhyUnmade news_fits (watch_in domain.now) why
        (seen seat.old) (seen seat.new)) }
    ensures client { OnErr result (seat.new.view.client ≡ seat.old.view.client) }
    ensures keeps { Keeps (one_by result) (one_by result)
        (with_answer result seat.old.view.core.owned) seat.old.view.core.weaks
        seat.old seat.new }
    ensures room { HasRoom seat.new.view.core }
    ensures rest { IsAtRest domain.now seat.new }
{
    let payload = payload_with(2, event);
    make::<WatchLaw, Right, NewsLaw, MakeDelivery>(domain, seat, &payload, MakeDelivery)
}
