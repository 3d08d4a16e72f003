//! A value is read: the seat comes under a snapshot of the object that the cell holds.
ghost use Rattle.std.specs.Prelude.{ℕ, ◌≡◌, ◌<◌, ◌↔◌, Err, IfOk, IfSome, OnErr};
ghost use Rattle.cdrc.specs.core_events.Steps.{HasRoom};
ghost use Rattle.cdrc.specs.core_events.Views.{Holds};
ghost use Rattle.cdrc.specs.core_events.Words.{slot_in};
ghost use Rattle.cdrc.specs.counted_handles.declared.refusal.LoadError.TheVariants as refused;
ghost use Rattle.cdrc.specs.control_word.Moves.{KnowsStill};
ghost use Rattle.cdrc.specs.control_word.Resting.{IsAtRest};
ghost use Rattle.cdrc.specs.snapshot_ptr.Handles.{IsUnder, notes_with, slot_under};
ghost use Rattle.cdrc.specs.snapshot_ptr.Taking.{CanTakeNone};
ghost use Rattle.example_setting.specs.Calls.{Moves, Reads, TakesFrom, WasPutThere};

use crate::deeds::ReadValue;
use crate::law::SettingLaw;
use cdrc::{Domain, LoadError, PayloadKind, Place, Seat, Snapshot, try_snapshot};

/// A snapshot of the object that the cell holds. The seat has read its value then, which some seat put into the cell:
/// `slot_store::read` tells each word, as long as the snapshot lasts, and `snapshot_ptr::end` ends it. `None` where the
/// cell was found null, `Moved` where it changed meanwhile, and `Spent` where the seat is under three snapshots and has
/// no add left of its quota. At most four steps, or five and one add where the snapshot is counted.
pub fn read_value<K: PayloadKind>(
    domain: &Domain<SettingLaw<K>>,
    seat: &mut Seat<SettingLaw<K>>,
    cell: u32,
) -> Result<Option<Snapshot>, LoadError>
    requires rest { IsAtRest domain.now seat.old }
    requires room { HasRoom seat.old.view.core }
    requires cell { cell ≡ domain.now.protocol.cell }
    requires there { cell < domain.now.shape.cells }
    ensures read { IfOk result (λ found. Reads found seat.old.view.client seat.new) }
    ensures taken { IfOk result (λ found. TakesFrom K.fits domain.now domain.now.protocol.cell
        (slot_under found) seat.old seat.new) }
    ensures put { IfOk result (λ found. IfSome found (λ snapshot. WasPutThere domain.now
        domain.now.protocol.cell snapshot.slot seat.old seat.new)) }
    ensures refused { result ≡ Err refused.Spent → seat.new ≡ seat.old }
    ensures moved { (seen now : ℕ) → result ≡ Err (refused.Moved seen now)
        → Moves K.fits domain.now domain.now.protocol.cell (slot_in seen) (slot_in now)
        seat.old seat.new }
    ensures spent { (result ≡ Err refused.Spent) ↔ CanTakeNone seat.old.view.core }
    ensures stored { seat.new.view.client.stored ≡ seat.old.view.client.stored }
    ensures under { IfOk result (λ found.
        IfSome found (λ snapshot. IsUnder snapshot seat.new.view.core)) }
    ensures holds { IfOk result (λ found.
        IfSome found (λ snapshot. Holds seat.new.view.core snapshot.slot)) }
    ensures notes { IfOk result (λ found. seat.new.view.core.notes
        ≡ notes_with found seat.old.view.core.notes) }
    ensures still { OnErr result (seat.new.view.core.notes ≡ seat.old.view.core.notes) }
    ensures objects { KnowsStill seat.old.view.core seat.old seat.new }
    ensures room { HasRoom seat.new.view.core }
    ensures rest { IsAtRest domain.now seat.new }
{
    try_snapshot(domain, seat, Place::Cell(cell), ReadValue)
}
