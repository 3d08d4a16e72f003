//! Turns with a weak reference to what cell 0 holds. The loop ends at the first turn that can't be made.
ghost use Rattle.std.specs.Prelude.{◌≡◌, ◌<◌, ◌+◌, true, IfSome};
ghost use Rattle.snapshot_ptr.specs.plain_state.Lists.{times};
ghost use Rattle.slot_store.specs.core_events.Steps.{HasRoom};
ghost use Rattle.slot_store.specs.control_word.Resting.{IsAtRest};
ghost use Rattle.turn_loops.specs.Turns.{UsedAdds};

use crate::domain::Objects;
use crate::strong_turns::CELL;
use slot_store::{Domain, Seat};
use snapshot_ptr::{AnyStep, Weak, drop_strong, drop_weak, load, upgrade, weaken};
use std::sync::Wait;

/// A weak reference to what the cell holds.
fn watch<R: Wait>(rt: &R, domain: &Domain<Objects>, seat: &mut Seat<Objects>) -> Option<Weak>
    requires rest { IsAtRest domain.now seat.old }
    requires room { HasRoom seat.old.view.core }
    requires cell { 0 < domain.now.shape.cells }
    ensures watched { IfSome result (λ weak. 0 < times weak.slot seat.new.view.core.weaks) }
    ensures adds { IfSome result (λ weak. UsedAdds 2 seat.old.view.core seat.new.view.core) }
    ensures room { HasRoom seat.new.view.core }
    ensures rest { IsAtRest domain.now seat.new }
{
    let Ok(Some(strong)) = load(rt, domain, seat, CELL, AnyStep) else {
        return None;
    };
    let Ok(weak) = weaken(domain, seat, &strong) else {
        drop_strong(domain, seat, strong);
        return None;
    };
    drop_strong(domain, seat, strong);
    Some(weak)
}

/// Upgrades a weak reference to what the cell holds, and drops what it got. Whether it made all turns: not where it
/// found null, where the object had ended, or where no add was left. The weak reference uses two adds besides.
pub fn upgrades<R: Wait>(
    rt: &R,
    domain: &Domain<Objects>,
    seat: &mut Seat<Objects>,
    turns: u64,
) -> bool
    requires rest { IsAtRest domain.now seat.old }
    requires room { HasRoom seat.old.view.core }
    requires cell { 0 < domain.now.shape.cells }
    ensures turns { result ≡ true
        → UsedAdds (turns + 2) seat.old.view.core seat.new.view.core }
    ensures room { HasRoom seat.new.view.core }
    ensures rest { IsAtRest domain.now seat.new }
{
    let Some(weak) = watch(rt, domain, seat) else {
        return false;
    };
    let all = upgrade_turns(domain, seat, &weak, turns);
    drop_weak(domain, seat, weak);
    all
}

/// The same turns, with the weak reference.
fn upgrade_turns(
    domain: &Domain<Objects>,
    seat: &mut Seat<Objects>,
    weak: &Weak,
    turns: u64,
) -> bool
    requires rest { IsAtRest domain.now seat.old }
    requires room { HasRoom seat.old.view.core }
    requires owned { 0 < times weak.now.slot seat.old.view.core.weaks }
    ensures turns { result ≡ true → UsedAdds turns seat.old.view.core seat.new.view.core }
    ensures owned { 0 < times weak.now.slot seat.new.view.core.weaks }
    ensures room { HasRoom seat.new.view.core }
    ensures rest { IsAtRest domain.now seat.new }
{
    for _turn in 0..turns {
        let Ok(strong) = upgrade(domain, seat, weak, AnyStep) else {
            return false;
        };
        drop_strong(domain, seat, strong);
    }
    true
}
