//! Turns that store new objects into cells. A loop ends at the first turn that can't be made.
ghost use Rattle.std.specs.Prelude.{ℕ, ◌≡◌, ◌<◌, true};
ghost use Rattle.epoch_refs.specs.Walks.{IsFree};
ghost use Rattle.region_turns.specs.Stores.{HasFlushed, HasStored, HasStoredEach, drawn};
ghost use Rattle.region_turns.specs.Turns.{MadeObjects};

use crate::opening::CELLS;
use epoch_refs::{AnyStep, EpochDomain, EpochSeat, Place, e_drop, e_make, e_store, flush};
use std::alloc::Global;
use turn_loops::{AnyPayload, Deleter, Objects};

/// How many stores a flush is for.
const STORES: u64 = 64;

/// Stores a new object into a cell that a sequence draws, which begins with the seed, and flushes after every 64th
/// store. Whether it made all turns: not where there was no memory, or where it could make no object.
pub(crate) fn store_turns(
    alloc: Global,
    domain: &EpochDomain<Objects>,
    seat: &mut EpochSeat<Objects>,
    seed: u64,
    turns: u32,
) -> bool
    requires free { IsFree domain.now seat.old }
    requires cells { domain.now.shape.cells ≡ 16 }
    ensures made { result ≡ true
        → MadeObjects turns seat.old.view.core seat.new.view.core }
    ensures stored { result ≡ true → (last : ℕ)
        × HasStoredEach seed turns last seat.old.view.core seat.new.view.core }
    ensures free { IsFree domain.now seat.new }
{
    let mut state = seed;
    for turn in 0..turns {
        state = drawn_after(state);
        let cell = (state >> 33) % u64::from(CELLS);
        let number = u64::from(turn) + 1;
        if !store_new(alloc, domain, seat, cell as u32, number) {
            return false;
        }
        if !flush_after(alloc, domain, seat, number) {
            return false;
        }
    }
    true
}

/// What a linear congruential sequence draws after a number.
#[tactic(auto, unfolding(crate::specs::Stores::drawn))]
fn drawn_after(state: u64) -> u64
    ensures { result ≡ drawn state }
{
    state
        .wrapping_mul(6_364_136_223_846_793_005)
        .wrapping_add(1_442_695_040_888_963_407)
}

/// A payload that is its number.
fn numbered(number: u64) -> [u64; 16] {
    let mut payload = [0; 16];
    payload[0] = number;
    payload
}

/// Makes an object, and stores it into a cell. Whether it was stored: what can't be stored is given up.
pub(crate) fn store_new(
    alloc: Global,
    domain: &EpochDomain<Objects>,
    seat: &mut EpochSeat<Objects>,
    cell: u32,
    number: u64,
) -> bool
    requires free { IsFree domain.now seat.old }
    requires cell { cell < domain.now.shape.cells }
    ensures made { result ≡ true → MadeObjects 1 seat.old.view.core seat.new.view.core }
    ensures stored { result ≡ true → HasStored cell seat.old.view.core seat.new.view.core }
    ensures free { IsFree domain.now seat.new }
{
    let Ok(new) = e_make(domain, seat, &numbered(number), AnyStep) else {
        return false;
    };
    if let Err(refused) = e_store(alloc, domain, seat, Place::Cell(cell), Some(new), AnyStep) {
        if let Some(back) = refused.back {
            e_drop(domain, seat, back);
        }
        return false;
    }
    true
}

/// Flushes where the store of this number is a 64th one. Whether there was memory for it.
fn flush_after(
    alloc: Global,
    domain: &EpochDomain<Objects>,
    seat: &mut EpochSeat<Objects>,
    number: u64,
) -> bool
    requires free { IsFree domain.now seat.old }
    ensures made { MadeObjects 0 seat.old.view.core seat.new.view.core }
    ensures flushed { result ≡ true
        → HasFlushed number seat.old.view.core seat.new.view.core }
    ensures free { IsFree domain.now seat.new }
{
    if number % STORES != 0 {
        return true;
    }
    let deleter: Deleter<AnyPayload, _> = Deleter::keep(|_payload: &[u64; 16]| 0);
    flush(alloc, domain, seat, &deleter).is_ok()
}
