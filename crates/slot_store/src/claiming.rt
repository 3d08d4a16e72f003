//! The search for a free slot: a seat claims slots by what the words of bits that it finds show.
ghost use Rattle.std.specs.Prelude.{◌<◌, ◌-◌, ◌/◌, ◌^◌, ◌≡◌, ◌==◌, if◌then◌else◌, IsNone};
ghost use Rattle.claim_law.specs.core_events.Steps.{HasAdd, HasMake};
ghost use Rattle.claim_law.specs.Claims.{makes_given};
ghost use Rattle.retiring_stores.specs.acquire_retire.Calls.{IsOf};
ghost use Rattle.retiring_stores.specs.control_word.Resting.{IsAtRest};
ghost use Rattle.slot_store.specs.Searching.{Searches};
ghost use Rattle.slot_store.specs.Turns.{IsAtTurn, newest};

use protocol_pairs::Protocol;
use retiring_stores::{Domain, Outcome, Seat, SlotId, has_bit};

/// How many slots have their bits in one word.
const SLOTS_IN_WORD: u32 = 64;

/// Where a search begins: at the slot that the seat gave back last, else where its last search ended.
fn first_slot<P: Protocol>(domain: &Domain<P>, seat: &mut Seat<P>) -> SlotId
    requires rest { IsAtRest domain.now seat.old }
    ensures same { seat.new ≡ seat.old }
    ensures there { result.0 < domain.now.shape.slots }
{
    match domain.take_freed(seat) {
        Some(slot) => slot,
        None => domain.search_start(seat),
    }
}

/// The slot of a turn: from the first one upwards, and after the last slot from slot 0 on.
fn slot_at(first: SlotId, turn: u32, slots: u32) -> SlotId
    requires first { first.0 < slots }
    requires turn { turn < slots }
    ensures { IsAtTurn first.0 slots turn result.0 }
{
    let above = slots - first.0;
    if turn < above {
        SlotId(first.0 + turn)
    } else {
        SlotId(turn - above)
    }
}

/// Whether two slots have their bits in one word.
fn is_in_word_of(slot: SlotId, other: SlotId) -> bool
    ensures { result ≡ (slot.0 / 64 == other.0 / 64) }
{
    slot.0 / SLOTS_IN_WORD == other.0 / SLOTS_IN_WORD
}

/// The newest that was found of the slot's word: `found` while the search is within a word, and where it comes to
/// another one nothing, but for the word in which it began.
fn newest(slot: SlotId, first: SlotId, home: u64, found: u64) -> u64
    ensures { result ≡ newest slot first home found }
{
    if slot.0 % SLOTS_IN_WORD != 0 {
        found
    } else if is_in_word_of(slot, first) {
        home
    } else {
        u64::MAX
    }
}

/// What was found last of the word in which the search began.
fn newest_home(slot: SlotId, first: SlotId, home: u64, found: u64) -> u64
    ensures { result ≡ (if slot.0 / 64 == first.0 / 64 then found else home) }
{
    if is_in_word_of(slot, first) {
        found
    } else {
        home
    }
}

/// Remembers where a search ended that began at `first` and claimed `slot`. One that claimed the slot which the seat
/// gave back last hasn't searched: the next one begins where this one would have, at `start`. So a seat that makes and
/// destroys by turns doesn't come back into slots that others have claimed meanwhile.
fn end_search<P: Protocol>(
    domain: &Domain<P>,
    seat: &mut Seat<P>,
    start: SlotId,
    first: SlotId,
    slot: SlotId,
)
    requires seat { IsOf domain.now seat.old }
    requires slot { slot.0 < 2 ^ 32 - 1 }
    ensures { seat.new ≡ seat.old }
{
    if slot != first || first == start {
        domain.end_search(seat, SlotId(slot.0 + 1));
    }
}

/// Claims the first slot that is found to be free, and remembers where it was. `None` where each was shown to be
/// taken, which comes only where more makes were given than there are slots. The slots come once each, and one is
/// claimed only where the newest that was found of its word has its bit set.
pub(crate) fn claim_any<P: Protocol>(domain: &Domain<P>, seat: &mut Seat<P>) -> Option<SlotId>
    requires rest { IsAtRest domain.now seat.old }
    requires make { HasMake seat.old.view.core }
    requires add { HasAdd seat.old.view.core }
    ensures search { Searches P.Kind.fits domain.now seat.old seat.new result }
    ensures none { IsNone result → domain.now.shape.slots < makes_given domain.now.terms }
{
    let slots = domain.shape().slots;
    let start = domain.search_start(seat);
    let first = first_slot(domain, seat);
    let mut home = u64::MAX;
    let mut found = u64::MAX;
    for turn in 0..slots {
        let slot = slot_at(first, turn, slots);
        found = newest(slot, first, home, found);
        if !has_bit(found, slot) {
            continue;
        }
        let Outcome::Taken(word) = domain.claim(seat, slot) else {
            end_search(domain, seat, start, first, slot);
            return Some(slot);
        };
        found = word;
        home = newest_home(slot, first, home, word);
    }
    None
}
