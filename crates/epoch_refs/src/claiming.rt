//! The search for a free slot: a seat claims slots until one was free.
ghost use Rattle.std.specs.Prelude.{◌<◌, ◌≤◌, ◌-◌, ◌^◌, ◌≡◌};
ghost use Rattle.epoch_domain.specs.Calls.{IsOf};
ghost use Rattle.epoch_domain.specs.epoch_core.Steps.{HasAdd, HasMake};
ghost use Rattle.epoch_refs.specs.Searching.{Searches, SearchesAll, in_order, slots_from};
ghost use Rattle.epoch_refs.specs.Walks.{IsAtRest};

use epoch_domain::{EpochDomain, EpochOutcome, EpochSeat, Protocol, SlotId};

/// Where a search begins: at the slot that the seat gave back last, else where its last search ended.
fn first_slot<P: Protocol>(domain: &EpochDomain<P>, seat: &mut EpochSeat<P>) -> SlotId
    requires seat { IsOf domain.now seat.old }
    ensures same { seat.new ≡ seat.old }
    ensures there { result.0 < domain.now.shape.slots }
{
    match domain.take_freed(seat) {
        Some(slot) => slot,
        None => domain.search_start(seat),
    }
}

/// Remembers where a search ended that began at `first` and claimed `slot`. One that claimed the slot which the seat
/// gave back last hasn't searched: the next one begins where this one would have, at `start`. So a seat that makes and
/// destroys by turns doesn't come back into slots that others have claimed meanwhile.
fn end_search<P: Protocol>(
    domain: &EpochDomain<P>,
    seat: &mut EpochSeat<P>,
    start: SlotId,
    first: SlotId,
    slot: SlotId,
)
    requires seat { IsOf domain.now seat.old }
    requires slot { slot.0 < domain.now.shape.slots }
    ensures { seat.new ≡ seat.old }
{
    let slots = domain.shape().slots;
    if slot != first || first == start {
        domain.end_search(seat, SlotId((slot.0 + 1) % slots));
    }
}

/// Claims the first slot that is found to be free, of those from the number `from` on and below `to`. `None` where each
/// was found taken.
fn claim_between<P: Protocol>(
    domain: &EpochDomain<P>,
    seat: &mut EpochSeat<P>,
    from: u32,
    to: u32,
) -> Option<SlotId>
    requires rest { IsAtRest domain.now seat.old }
    requires make { HasMake seat.old.view.core }
    requires add { HasAdd seat.old.view.core }
    requires up { from ≤ to }
    requires there { to ≤ domain.now.shape.slots }
    ensures { Searches P.Kind.fits domain.now (slots_from from (to - from)) seat.old seat.new
        result }
{
    for number in from..to {
        let slot = SlotId(number);
        let EpochOutcome::Taken(_) = domain.claim(seat, slot) else {
            return Some(slot);
        };
    }
    None
}

/// Claims the first slot that is found to be free, from the first one upwards, and after the last one from slot 0 on.
fn claim_round<P: Protocol>(
    domain: &EpochDomain<P>,
    seat: &mut EpochSeat<P>,
    first: u32,
) -> Option<SlotId>
    requires rest { IsAtRest domain.now seat.old }
    requires make { HasMake seat.old.view.core }
    requires add { HasAdd seat.old.view.core }
    requires there { first < domain.now.shape.slots }
    ensures { Searches P.Kind.fits domain.now (in_order domain.now.shape first) seat.old seat.new
        result }
{
    let slots = domain.shape().slots;
    match claim_between(domain, seat, first, slots) {
        Some(slot) => Some(slot),
        None => claim_between(domain, seat, 0, first),
    }
}

/// Claims the first slot that is found to be free, and remembers where it was. `None` where each slot of the domain was
/// found taken. No slot is claimed twice.
pub(crate) fn claim_any<P: Protocol>(
    domain: &EpochDomain<P>,
    seat: &mut EpochSeat<P>,
) -> Option<SlotId>
    requires rest { IsAtRest domain.now seat.old }
    requires make { HasMake seat.old.view.core }
    requires add { HasAdd seat.old.view.core }
    ensures { SearchesAll P.Kind.fits domain.now seat.old seat.new result }
{
    let start = domain.search_start(seat);
    let first = first_slot(domain, seat);
    let slot = claim_round(domain, seat, first.0)?;
    end_search(domain, seat, start, first, slot);
    Some(slot)
}
