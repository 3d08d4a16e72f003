//! A value is remembered weakly.
ghost use Rattle.std.specs.Prelude.{◌≡◌, ◌<◌, ◌↔◌, IfOk, IsErr, OnErr};
ghost use Rattle.cdrc.specs.plain_state.Lists.{times};
ghost use Rattle.cdrc.specs.plain_state.declared.slot.SlotId.{SlotId};
ghost use Rattle.cdrc.specs.core_events.Steps.{HasRoom};
ghost use Rattle.cdrc.specs.control_word.Moves.{KnowsStill};
ghost use Rattle.cdrc.specs.control_word.Resting.{IsAtRest, IsSpent};
ghost use Rattle.cdrc.specs.domain_rule.Views.{object_in};
ghost use Rattle.example_cache.specs.Calls.{RemembersSlot, remembered_too};

use crate::deeds::RememberValue;
use crate::law::CacheLaw;
use cdrc::{Domain, PayloadKind, Seat, Spent, Strong, WeakPlace, store_weak, weaken};

/// Remembers the value of an object that the seat owns, as long as somebody keeps the object alive; what the cache
/// remembered before is retired. `Spent` exactly where the seat has no add left of its quota, and then nothing has
/// changed. Two steps, one add, and a collect where one is due.
pub fn remember<K: PayloadKind>(
    domain: &Domain<CacheLaw<K>>,
    seat: &mut Seat<CacheLaw<K>>,
    cell: u32,
    object: &Strong,
) -> Result<(), Spent>
    requires rest { IsAtRest domain.now seat.old }
    requires room { HasRoom seat.old.view.core }
    requires cell { cell ≡ domain.now.protocol.cell }
    requires there { cell < domain.now.shape.weak_cells }
    requires owned { 0 < times object.now.slot seat.old.view.core.owned }
    ensures spent { IsErr result ↔ IsSpent seat.old.view.core }
    ensures refused { OnErr result (seat.new ≡ seat.old) }
    ensures remembered { IfOk result (λ done. seat.new.view.client
        ≡ remembered_too (object_in seat.old.view object.now.slot).payload
        seat.old.view.client) }
    ensures put { IfOk result (λ done. RemembersSlot K.fits domain.now domain.now.protocol.cell
        object.now.slot seat.old seat.new) }
    ensures owned { seat.new.view.core.owned ≡ seat.old.view.core.owned }
    ensures weaks { (x : SlotId) → times x seat.new.view.core.weaks
        ≡ times x seat.old.view.core.weaks }
    ensures notes { seat.new.view.core.notes ≡ seat.old.view.core.notes }
    ensures known { object_in seat.new.view object.now.slot
        ≡ object_in seat.old.view object.now.slot }
    ensures objects { KnowsStill seat.old.view.core seat.old seat.new }
    ensures room { HasRoom seat.new.view.core }
    ensures rest { IsAtRest domain.now seat.new }
{
    let weak = weaken(domain, seat, object)?;
    store_weak(
        domain,
        seat,
        WeakPlace::Cell(cell),
        Some(weak),
        RememberValue,
    );
    Ok(())
}
