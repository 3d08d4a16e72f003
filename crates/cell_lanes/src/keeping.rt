//! The references that a lane keeps, as its seat owns them.
ghost use Rattle.std.specs.Prelude.{◌≡◌, ◌<◌, ◌≤◌, [], ◌∷◌, OnErr, OnOk, drop, take, vec_len};
ghost use Rattle.cell_intern.specs.cell_calls.Keeping.{Keeps};
ghost use Rattle.cell_intern.specs.cell_calls.cell_law.plain_state.declared.slot.SlotId.{SlotId};
ghost use Rattle.cell_intern.specs.cell_calls.cell_law.plain_state.Lists.{times};
ghost use Rattle.cell_intern.specs.epoch_refs.epoch_core.core_events.Views.{without};
ghost use Rattle.lane_work.specs.Keeping.{IsSameKeeper, slots_of};
ghost use Rattle.cell_lanes.specs.Keeping.{GivesUp, KeepsOne};
ghost use Rattle.cell_lanes.specs.Ready.{IsReady};

use cell_intern::{CellLaw, EpochDomain, EpochSeat, Strong, e_drop};
use lane_work::{Keeper, OutOfMemory};

/// Keeps the seat's reference to a record, or gives it up where one to that slot is kept for the present file. With no
/// memory it gives it up too. At most one event.
pub(crate) fn keep(
    keeper: &mut Keeper,
    domain: &EpochDomain<CellLaw>,
    seat: &mut EpochSeat<CellLaw>,
    handle: Strong,
) -> Result<(), OutOfMemory>
    requires ready { IsReady domain.now seat.old }
    requires owned { 0 < times handle.slot seat.old.view.core.owned }
    ensures keeps { OnOk result (KeepsOne handle keeper.old keeper.new seat.old seat.new) }
    ensures refused { OnErr result (IsSameKeeper keeper.old keeper.new) }
    ensures gives { OnErr result (GivesUp (handle.slot ∷ []) seat.old seat.new) }
    ensures client { seat.new.view.client ≡ seat.old.view.client }
    ensures ready { IsReady domain.now seat.new }
{
    match keeper.admit(handle) {
        Ok(None) => Ok(()),
        Ok(Some(handle)) => {
            give_up(domain, seat, handle);
            Ok(())
        }
        Err(refused) => {
            give_up(domain, seat, refused.back);
            Err(OutOfMemory)
        }
    }
}

/// Gives up what is kept, but for the first so many references. One event for each.
pub(crate) fn give_back(
    keeper: &mut Keeper,
    domain: &EpochDomain<CellLaw>,
    seat: &mut EpochSeat<CellLaw>,
    first: usize,
)
    requires ready { IsReady domain.now seat.old }
    requires first { first ≤ vec_len keeper.old.kept }
    requires owned { (s : SlotId) → times s (slots_of (drop first keeper.old.kept.items))
        ≤ times s seat.old.view.core.owned }
    ensures kept { keeper.new.kept.items ≡ take first keeper.old.kept.items }
    ensures gives { GivesUp (slots_of (drop first keeper.old.kept.items)) seat.old seat.new }
    ensures client { seat.new.view.client ≡ seat.old.view.client }
    ensures ready { IsReady domain.now seat.new }
{
    while keeper.kept.len() > first {
        let Some(handle) = keeper.kept.pop() else {
            unreachable!()
        };
        give_up(domain, seat, handle);
    }
}

/// Gives up a reference. One event.
pub(crate) fn give_up(domain: &EpochDomain<CellLaw>, seat: &mut EpochSeat<CellLaw>, handle: Strong)
    requires ready { IsReady domain.now seat.old }
    requires owned { 0 < times handle.slot seat.old.view.core.owned }
    ensures gives { GivesUp (handle.slot ∷ []) seat.old seat.new }
    ensures client { seat.new.view.client ≡ seat.old.view.client }
    ensures ready { IsReady domain.now seat.new }
{
    e_drop(domain, seat, handle);
}
