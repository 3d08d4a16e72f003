//! An item that was taken off the queue is read, and given up.
ghost use Rattle.std.specs.Prelude.{◌≡◌, ◌<◌};
ghost use Rattle.control_word.specs.Resting.{IsAtRest};
ghost use Rattle.control_word.specs.core_events.Steps.{HasRoom};
ghost use Rattle.control_word.specs.core_events.Views.{without};
ghost use Rattle.control_word.specs.domain_rule.Views.{object_in};
ghost use Rattle.control_word.specs.plain_state.Lists.{times};
ghost use Rattle.watch_protocol.specs.watch_law.Payloads.{IsDelivery, IsObserver};
ghost use Rattle.weak_watch.specs.Keeping.{Keeps};
ghost use Rattle.weak_watch.specs.Receiving.{HasReceived, Opens, left_by};

use crate::delivery::{Delivery, Received};
use part_calls::read;
use watch_protocol::{NewsLaw, Right, WatchLaw};
use weak_part_calls::{Domain, Seat, Strong, drop_strong};

/// Reads an item and what its field 0 held, and gives the item up: if it is a delivery it answers its event, and the
/// observer with its id; if not it gives up what was in the field too. At most nine steps.
pub(crate) fn open(
    domain: &Domain<NewsLaw>,
    seat: &mut Seat<NewsLaw>,
    item: Strong,
    content: Strong,
) -> Received
    requires rest { IsAtRest domain.now seat.old }
    requires room { HasRoom seat.old.view.core }
    requires item { 0 < times item.slot seat.old.view.core.owned }
    requires content { 0 < times content.slot (without item.slot seat.old.view.core.owned) }
    requires observer { IsDelivery (object_in seat.old.view item.slot).payload
        → IsObserver (object_in seat.old.view content.slot).payload }
    ensures opens { Opens item.slot content.slot result seat.old }
    ensures has { HasReceived result seat.new }
    ensures client { seat.new.view.client ≡ seat.old.view.client }
    ensures keeps { Keeps 0 0 (left_by result item.slot content.slot seat.old.view.core.owned)
        seat.old.view.core.weaks seat.old seat.new }
    ensures room { HasRoom seat.new.view.core }
    ensures rest { IsAtRest domain.now seat.new }
{
    if read(domain, seat, item.slot(), 0) != 2 {
        drop_strong::<WatchLaw, Right, NewsLaw>(domain, seat, item);
        drop_strong::<WatchLaw, Right, NewsLaw>(domain, seat, content);
        return Received::Passed;
    }
    let event = read(domain, seat, item.slot(), 1);
    let id = read(domain, seat, content.slot(), 1);
    drop_strong::<WatchLaw, Right, NewsLaw>(domain, seat, item);
    Received::Delivery(Delivery {
        observer: content,
        id,
        event,
    })
}
