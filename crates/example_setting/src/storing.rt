//! A value is stored: an object is made of it, and put into the cell.
ghost use Rattle.std.specs.Prelude.{◌≡◌, ◌∷◌, ◌++◌, [], ◌<◌, IfErr, IfOk, OnErr};
ghost use Rattle.cdrc.specs.core_events.Steps.{HasRoom};
ghost use Rattle.cdrc.specs.control_word.Moves.{KnowsStill};
ghost use Rattle.cdrc.specs.control_word.Resting.{IsAtRest};
ghost use Rattle.example_setting.specs.Calls.{IsWhyUnmade, OwnsAsMuch, StoresValue};

use crate::deeds::StoreValue;
use crate::law::SettingLaw;
use cdrc::{Domain, MakeError, PayloadKind, Place, Seat, Spares, make, store};

/// Stores a value: makes an object of it, and puts it into the cell. What was there is retired. Where no object can be
/// made, as `slot_store::make` says, nothing is stored.
pub fn store_value<K: PayloadKind>(
    domain: &Domain<SettingLaw<K>>,
    seat: &mut Seat<SettingLaw<K>>,
    cell: u32,
    value: &[u64; 16],
) -> Result<(), MakeError>
    requires rest { IsAtRest domain.now seat.old }
    requires room { HasRoom seat.old.view.core }
    requires cell { cell ≡ domain.now.protocol.cell }
    requires there { cell < domain.now.shape.cells }
    requires fits { K.fits value.now }
    ensures stored { IfOk result (λ done. seat.new.view.client.stored
        ≡ seat.old.view.client.stored ++ value.now ∷ []) }
    ensures put { IfOk result (λ done. StoresValue K.fits domain.now domain.now.protocol.cell
        value.now seat.old seat.new) }
    ensures why { IfErr result (λ why. IsWhyUnmade K.fits domain.now why seat.old seat.new) }
    ensures refused { OnErr result (seat.new.view.client ≡ seat.old.view.client) }
    ensures owned { OwnsAsMuch seat.old seat.new }
    ensures notes { seat.new.view.core.notes ≡ seat.old.view.core.notes }
    ensures objects { KnowsStill seat.old.view.core seat.old seat.new }
    ensures room { HasRoom seat.new.view.core }
    ensures rest { IsAtRest domain.now seat.new }
{
    let object = make(domain, seat, value, Spares)?;
    store(domain, seat, Place::Cell(cell), Some(object), StoreValue);
    Ok(())
}
