//! The turns of one thread, and what they begin with.
ghost use Rattle.std.specs.Prelude.{◌≡◌, IfSome};
ghost use Rattle.epoch_refs.specs.Walks.{IsFree};
ghost use Rattle.region_turns.specs.Turns.{HasMade, turns_of};

use crate::looking::look_turns;
use crate::opening::{CELLS, Worker};
use crate::operation::RegionOperation;
use crate::storing::{store_new, store_turns};
use epoch_refs::{EpochDomain, EpochSeat};
use std::alloc::Global;
use turn_loops::Objects;

/// Puts an object into each cell, as far as there is memory.
pub fn begin(alloc: Global, domain: &EpochDomain<Objects>, root: &mut EpochSeat<Objects>)
    requires root { IsFree domain.now root.old }
    requires cells { domain.now.shape.cells ≡ 16 }
    ensures { IsFree domain.now root.new }
{
    for cell in 0..CELLS {
        store_new(alloc, domain, root, cell, 0);
    }
}

/// Makes the turns of an operation. The worker, where all of them were made.
pub fn make_turns(
    alloc: Global,
    domain: &EpochDomain<Objects>,
    mut worker: Worker,
    operation: RegionOperation,
) -> Option<Worker>
    requires free { IsFree domain.now worker.seat }
    requires cells { domain.now.shape.cells ≡ 16 }
    ensures { IfSome result (λ made. HasMade operation worker.thread (turns_of operation)
        worker.seat.view.core made.seat.view.core) }
{
    let turns = operation.turns();
    let thread = worker.thread;
    let seat = &mut worker.seat;
    let all = match operation {
        RegionOperation::LookOnce => look_turns(domain, seat, thread, turns, 1),
        RegionOperation::LookTenTimes => look_turns(domain, seat, thread, turns, 10),
        RegionOperation::Store => store_turns(alloc, domain, seat, u64::from(thread), turns),
    };
    all.then_some(worker)
}
