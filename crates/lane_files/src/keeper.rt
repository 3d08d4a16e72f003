//! The references that a lane keeps, as its seat owns them.
ghost use Rattle.std.specs.Prelude.{◌≡◌, ◌<◌, ◌≤◌, OnErr, OnOk, drop, take, vec_len};
ghost use Rattle.control_word.specs.plain_state.declared.slot.SlotId.{SlotId};
ghost use Rattle.control_word.specs.plain_state.Lists.{times};
ghost use Rattle.control_word.specs.core_events.Views.{without};
ghost use Rattle.lane_files.specs.Ready.{IsReady, Owns};
ghost use Rattle.lane_files.specs.Keeping.{GivesUp, IsSameKeeper, KeepsOne, slots_of};

use crate::Shared;
use control_word::{Domain, Seat, Strong, drop_strong};
use lane_work::Keeper;
use words_protocol::{OutOfMemory, WordsLaw};

/// Keeps the seat's reference to a record, or gives it up where one to that slot is kept for the present file. With no
/// memory it gives it up too. At most three steps.
pub fn keep(
    keeper: &mut Keeper,
    domain: &Domain<WordsLaw>,
    seat: &mut Seat<WordsLaw>,
    shared: &Shared,
    handle: Strong,
) -> Result<(), OutOfMemory>
    requires ready { IsReady domain.now shared.now seat.old }
    requires owned { 0 < times handle.slot seat.old.view.core.owned }
    ensures keeps { OnOk result (KeepsOne handle keeper.old keeper.new seat.old seat.new) }
    ensures refused { OnErr result (IsSameKeeper keeper.old keeper.new) }
    ensures gives { OnErr result
        (Owns (without handle.slot seat.old.view.core.owned) seat.old seat.new) }
    ensures client { seat.new.view.client ≡ seat.old.view.client }
    ensures makes { seat.new.view.core.makes ≡ seat.old.view.core.makes }
    ensures ready { IsReady domain.now shared.now seat.new }
{
    match keeper.admit(handle) {
        Ok(None) => Ok(()),
        Ok(Some(handle)) => {
            drop_strong(domain, seat, handle);
            Ok(())
        }
        Err(refused) => {
            drop_strong(domain, seat, refused.back);
            Err(OutOfMemory)
        }
    }
}

/// Gives up what is kept, but for the first so many references. At most three steps for each.
pub fn give_back(
    keeper: &mut Keeper,
    domain: &Domain<WordsLaw>,
    seat: &mut Seat<WordsLaw>,
    shared: &Shared,
    first: usize,
)
    requires ready { IsReady domain.now shared.now seat.old }
    requires first { first ≤ vec_len keeper.old.kept }
    requires owned { (s : SlotId) → times s (slots_of (drop first keeper.old.kept.items))
        ≤ times s seat.old.view.core.owned }
    ensures kept { keeper.new.kept.items ≡ take first keeper.old.kept.items }
    ensures gives { GivesUp (slots_of (drop first keeper.old.kept.items)) seat.old seat.new }
    ensures client { seat.new.view.client ≡ seat.old.view.client }
    ensures makes { seat.new.view.core.makes ≡ seat.old.view.core.makes }
    ensures ready { IsReady domain.now shared.now seat.new }
{
    while keeper.kept.len() > first {
        let Some(handle) = keeper.kept.pop() else {
            unreachable!()
        };
        drop_strong(domain, seat, handle);
    }
}
