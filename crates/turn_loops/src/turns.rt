//! The turns of one thread, and what they begin with.
ghost use Rattle.std.specs.Prelude.{◌<◌, IfSome};
ghost use Rattle.turn_loops.specs.Free.{IsFree};
ghost use Rattle.turn_loops.specs.Turns.{HasMade, turns_of};

use crate::domain::Objects;
use crate::operation::Operation;
use crate::strong_turns::{CELL, copies, loads, makes, snapshots, stores};
use crate::weak_turns::upgrades;
use slot_store::{Domain, Seat, make};
use snapshot_ptr::{AnyStep, store};
use std::sync::Wait;

/// Puts an object into the cell that all threads share.
pub fn begin(domain: &Domain<Objects>, root: &mut Seat<Objects>)
    requires root { IsFree domain.now root.old }
    requires cell { 0 < domain.now.shape.cells }
{
    if let Ok(strong) = make(domain, root, &[0; 16], AnyStep) {
        store(domain, root, CELL, Some(strong), AnyStep);
    }
}

/// Makes the turns of an operation. The seat, where all of them were made.
pub fn make_turns<R: Wait>(
    rt: &R,
    domain: &Domain<Objects>,
    mut seat: Seat<Objects>,
    operation: Operation,
) -> Option<Seat<Objects>>
    requires free { IsFree domain.now seat }
    requires cell { 0 < domain.now.shape.cells }
    ensures { IfSome result (λ made. HasMade operation (turns_of operation) seat.view.core
        made.view.core) }
{
    let turns = operation.turns();
    let all = match operation {
        Operation::Load => loads(rt, domain, &mut seat, turns),
        Operation::Snapshot => snapshots(rt, domain, &mut seat, turns),
        Operation::Store => stores(domain, &mut seat, turns),
        Operation::Copy => copies(rt, domain, &mut seat, turns),
        Operation::Upgrade => upgrades(rt, domain, &mut seat, turns),
        Operation::MakeDrop => makes(domain, &mut seat, turns),
    };
    all.then_some(seat)
}
