//! A delivery that is given its observer.
ghost use Rattle.std.specs.Prelude.{◌≡◌, ◌<◌};
ghost use Rattle.control_word.specs.Resting.{IsAtRest};
ghost use Rattle.control_word.specs.core_events.Steps.{HasRoom};
ghost use Rattle.control_word.specs.core_events.Views.{without};
ghost use Rattle.control_word.specs.plain_state.Lists.{times};
ghost use Rattle.weak_watch.specs.Keeping.{Keeps};
ghost use Rattle.weak_watch.specs.Subjects.{news_fits, seen, watch_in};
ghost use Rattle.weak_watch.specs.Sending.{Addresses, HasDelivery, HasObserver, address_in, addressed_too};

use linked_queue::UnlessRipe;
use part_calls::{Place, store};
use watch_protocol::{AddressDelivery, NewsLaw, Right, WatchLaw};
use weak_part_calls::{Domain, Seat, Strong};

/// Puts the observer, which the seat gives, into field 0 of the delivery that it made last. One step, and a collect
/// where one is due then.
pub(crate) fn address(
    domain: &Domain<NewsLaw>,
    seat: &mut Seat<NewsLaw>,
    delivery: &Strong,
    observer: Strong,
    id: u32,
    event: u64,
)
    requires rest { IsAtRest domain.now seat.old }
    requires room { HasRoom seat.old.view.core }
    requires delivery { HasDelivery event delivery.now.slot seat.old seat.old.view.client.1 }
    requires observer { HasObserver id observer.slot seat.old }
    ensures addresses { Addresses news_fits (watch_in domain.now) delivery.now.slot observer.slot
        (seen seat.old) (seen seat.new) }
    ensures noted { seat.new.view.client ≡ (
      seat.old.view.client.0,
      addressed_too
          (address_in id event delivery.now.slot observer.slot seat.old) seat.old.view.client.1,
    ) }
    ensures owned { 0 < times delivery.now.slot seat.new.view.core.owned }
    ensures keeps { Keeps 0 0 (without observer.slot seat.old.view.core.owned)
        seat.old.view.core.weaks seat.old seat.new }
    ensures room { HasRoom seat.new.view.core }
    ensures rest { IsAtRest domain.now seat.new }
{
    let slot = delivery.slot();
    let deed = AddressDelivery {
        slot,
        observer: observer.slot(),
    };
    store::<WatchLaw, Right, NewsLaw, UnlessRipe<AddressDelivery>>(
        domain,
        seat,
        Place::Field(slot, 0),
        Some(observer),
        UnlessRipe { deed },
    );
}
