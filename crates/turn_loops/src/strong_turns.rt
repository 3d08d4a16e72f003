//! Turns with strong references, on cell 0. A loop ends at the first turn that can't be made.
ghost use Rattle.std.specs.Prelude.{◌≡◌, ◌<◌, ◌+◌, true};
ghost use Rattle.snapshot_ptr.specs.plain_state.Lists.{times};
ghost use Rattle.slot_store.specs.core_events.Steps.{HasRoom};
ghost use Rattle.slot_store.specs.control_word.Resting.{IsAtRest};
ghost use Rattle.turn_loops.specs.Turns.{MadeObjects, MadeSteps, UsedAdds};

use crate::domain::{AnyPayload, Objects};
use slot_store::{Deleter, Domain, Seat, make, reap};
use snapshot_ptr::{AnyStep, Place, Strong, copy_strong, drop_strong, end, load, snapshot, store};
use std::sync::Wait;

/// The cell that all threads share.
pub const CELL: Place = Place::Cell(0);

/// Loads what the cell holds, and drops it. Whether it made all turns: not where it found null, or had no add left.
pub fn loads<R: Wait>(
    rt: &R,
    domain: &Domain<Objects>,
    seat: &mut Seat<Objects>,
    turns: u64,
) -> bool
    requires rest { IsAtRest domain.now seat.old }
    requires room { HasRoom seat.old.view.core }
    requires cell { 0 < domain.now.shape.cells }
    ensures turns { result ≡ true → UsedAdds turns seat.old.view.core seat.new.view.core }
    ensures room { HasRoom seat.new.view.core }
    ensures rest { IsAtRest domain.now seat.new }
{
    for _turn in 0..turns {
        let Ok(Some(strong)) = load(rt, domain, seat, CELL, AnyStep) else {
            return false;
        };
        drop_strong(domain, seat, strong);
    }
    true
}

/// Takes a snapshot of what the cell holds, and ends it. Whether it made all turns: not where it found null, or had
/// neither an announcement word nor an add left.
pub fn snapshots<R: Wait>(
    rt: &R,
    domain: &Domain<Objects>,
    seat: &mut Seat<Objects>,
    turns: u64,
) -> bool
    requires rest { IsAtRest domain.now seat.old }
    requires room { HasRoom seat.old.view.core }
    requires cell { 0 < domain.now.shape.cells }
    ensures turns { result ≡ true → MadeSteps turns seat.old.view.core seat.new.view.core }
    ensures room { HasRoom seat.new.view.core }
    ensures rest { IsAtRest domain.now seat.new }
{
    for _turn in 0..turns {
        let Ok(Some(seen)) = snapshot(rt, domain, seat, CELL, AnyStep) else {
            return false;
        };
        end(domain, seat, seen);
    }
    true
}

/// Copies a reference to what the cell holds, and drops the copy. Whether it made all turns: not where it found null,
/// or had no add left. The reference that is copied uses one add besides.
pub fn copies<R: Wait>(
    rt: &R,
    domain: &Domain<Objects>,
    seat: &mut Seat<Objects>,
    turns: u64,
) -> bool
    requires rest { IsAtRest domain.now seat.old }
    requires room { HasRoom seat.old.view.core }
    requires cell { 0 < domain.now.shape.cells }
    ensures turns { result ≡ true
        → UsedAdds (turns + 1) seat.old.view.core seat.new.view.core }
    ensures room { HasRoom seat.new.view.core }
    ensures rest { IsAtRest domain.now seat.new }
{
    let Ok(Some(strong)) = load(rt, domain, seat, CELL, AnyStep) else {
        return false;
    };
    let all = copy_turns(domain, seat, &strong, turns);
    drop_strong(domain, seat, strong);
    all
}

/// The same turns, with the reference.
fn copy_turns(
    domain: &Domain<Objects>,
    seat: &mut Seat<Objects>,
    strong: &Strong,
    turns: u64,
) -> bool
    requires rest { IsAtRest domain.now seat.old }
    requires room { HasRoom seat.old.view.core }
    requires owned { 0 < times strong.now.slot seat.old.view.core.owned }
    ensures turns { result ≡ true → UsedAdds turns seat.old.view.core seat.new.view.core }
    ensures owned { 0 < times strong.now.slot seat.new.view.core.owned }
    ensures room { HasRoom seat.new.view.core }
    ensures rest { IsAtRest domain.now seat.new }
{
    for _turn in 0..turns {
        if !copy_once(domain, seat, strong) {
            return false;
        }
    }
    true
}

/// Copies the reference, and drops the copy. Whether an add was left for it.
fn copy_once(domain: &Domain<Objects>, seat: &mut Seat<Objects>, strong: &Strong) -> bool
    requires rest { IsAtRest domain.now seat.old }
    requires room { HasRoom seat.old.view.core }
    requires owned { 0 < times strong.now.slot seat.old.view.core.owned }
    ensures turn { result ≡ true → UsedAdds 1 seat.old.view.core seat.new.view.core }
    ensures owned { 0 < times strong.now.slot seat.new.view.core.owned }
    ensures room { HasRoom seat.new.view.core }
    ensures rest { IsAtRest domain.now seat.new }
{
    let Ok(copy) = copy_strong(domain, seat, strong) else {
        return false;
    };
    drop_strong(domain, seat, copy);
    true
}

/// A payload that is its number.
fn numbered(turn: u64) -> [u64; 16] {
    let mut payload = [0; 16];
    payload[0] = turn;
    payload
}

/// Makes an object, stores it into the cell, and reaps what has ended. Whether it made all turns: not where it could
/// make no object.
pub fn stores(domain: &Domain<Objects>, seat: &mut Seat<Objects>, turns: u64) -> bool
    requires rest { IsAtRest domain.now seat.old }
    requires room { HasRoom seat.old.view.core }
    requires cell { 0 < domain.now.shape.cells }
    ensures turns { result ≡ true → MadeObjects turns seat.old.view.core seat.new.view.core }
    ensures room { HasRoom seat.new.view.core }
    ensures rest { IsAtRest domain.now seat.new }
{
    for turn in 0..turns {
        let Ok(strong) = make(domain, seat, &numbered(turn), AnyStep) else {
            return false;
        };
        store(domain, seat, CELL, Some(strong), AnyStep);
        reap_all(domain, seat);
    }
    true
}

/// Makes an object, drops it, and reaps it. Whether it made all turns: not where it could make no object.
pub fn makes(domain: &Domain<Objects>, seat: &mut Seat<Objects>, turns: u64) -> bool
    requires rest { IsAtRest domain.now seat.old }
    requires room { HasRoom seat.old.view.core }
    ensures turns { result ≡ true → MadeObjects turns seat.old.view.core seat.new.view.core }
    ensures room { HasRoom seat.new.view.core }
    ensures rest { IsAtRest domain.now seat.new }
{
    for turn in 0..turns {
        let Ok(strong) = make(domain, seat, &numbered(turn), AnyStep) else {
            return false;
        };
        drop_strong(domain, seat, strong);
        reap_all(domain, seat);
    }
    true
}

/// Destroys what the seat has ended.
fn reap_all(domain: &Domain<Objects>, seat: &mut Seat<Objects>)
    requires rest { IsAtRest domain.now seat.old }
    requires room { HasRoom seat.old.view.core }
    ensures made { seat.new.view.core.makes ≡ seat.old.view.core.makes }
    ensures room { HasRoom seat.new.view.core }
    ensures rest { IsAtRest domain.now seat.new }
{
    let deleter: Deleter<AnyPayload, _> = Deleter::keep(|_payload: &[u64; 16]| 0);
    for _reap in 0..u64::MAX {
        if reap(domain, seat, &deleter).is_none() {
            break;
        }
    }
}
