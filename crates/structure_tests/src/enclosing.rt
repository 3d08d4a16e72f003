//! Letters with something in one of their fields.
ghost use Rattle.std.specs.Prelude.{◌≡◌, ◌<◌, IfOk};
ghost use Rattle.part_calls.specs.plain_state.Lists.{times};
ghost use Rattle.part_calls.specs.core_events.Views.{without};
ghost use Rattle.structure_tests.specs.Ready.{IsLetterIn, IsReady, StandsAs};

use crate::calls::write;
use crate::letters::{HandleLetter, Letter, Letters, Mail};
use part_calls::{Domain, Place, Right, Seat, SlotId, Strong, store};
use weak_intern::MakeError;

/// Writes a letter that has another one in this field.
pub(crate) fn enclose(
    domain: &Domain<Mail>,
    seat: &mut Seat<Mail>,
    letter: Letter,
    field: u32,
    content: Strong,
) -> Result<Strong, MakeError>
    requires ready { IsReady domain.now seat.old }
    requires field { field < 2 }
    requires owned { 0 < times content.slot seat.old.view.core.owned }
    ensures owned { IfOk result (λ item. 0 < times item.slot seat.new.view.core.owned) }
    ensures stands { StandsAs seat.old seat.new }
    ensures ready { IsReady domain.now seat.new }
{
    let item = write(domain, seat, letter)?;
    put_into(domain, seat, item.slot(), field, content);
    Ok(item)
}

/// Puts a letter into a field of another one, which the seat has besides.
fn put_into(domain: &Domain<Mail>, seat: &mut Seat<Mail>, item: SlotId, field: u32, content: Strong)
    requires ready { IsReady domain.now seat.old }
    requires field { field < 2 }
    requires letter { IsLetterIn item seat.old }
    requires owned { 0 < times item seat.old.view.core.owned }
    requires content { 0 < times content.slot seat.old.view.core.owned }
    requires left { 0 < times item (without content.slot seat.old.view.core.owned) }
    ensures owned { 0 < times item seat.new.view.core.owned }
    ensures stands { StandsAs seat.old seat.new }
    ensures ready { IsReady domain.now seat.new }
{
    let place = Place::Field(item, field);
    store::<Letters, Right, Mail, _>(domain, seat, place, Some(content), HandleLetter);
}
