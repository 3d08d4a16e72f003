//! The time of a turn that opens a region, or stores into cells that regions look at.
ghost use Rattle.std.specs.Prelude.{◌≤◌};

use crate::clock::Tenths;
use crate::fault::Fault;
use crate::jobs::in_threads;
use region_turns::{OpenedRegions, RegionOperation, begin, make_turns, open_regions};
use std::alloc::Global;
use std::rt::Clock;
use std::sync::Wait;
use std::thread::Threads;
use std::time::Instant;

/// The wall time of one turn of the operation, where so many threads make its turns at once. No time is told where a
/// turn was refused.
pub fn time_regions<R: Threads + Wait + Clock + Sync>(
    rt: &R,
    alloc: Global,
    operation: RegionOperation,
    threads: u32,
) -> Result<Tenths, Fault>
    requires { (1 ≤ threads) × (threads ≤ 15) }
{
    let OpenedRegions {
        domain,
        mut root,
        workers,
    } = open_regions(alloc, threads)?;
    begin(alloc, &domain, &mut root);
    let start = Instant::now(rt)?;
    let all = in_threads(
        rt,
        alloc,
        workers,
        &|worker| make_turns(alloc, &domain, worker, operation),
    )?;
    let elapsed = start.elapsed(rt)?;
    if !all {
        return Err(Fault::Turns);
    }
    Ok(Tenths::of_each(elapsed, u64::from(operation.turns())))
}
