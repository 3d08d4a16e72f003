//! The time of a turn that pushes and pops.
ghost use Rattle.std.specs.Prelude.{◌≤◌};

use crate::clock::Tenths;
use crate::fault::Fault;
use crate::jobs::in_threads;
use queue_turns::{OpenedQueue, TURNS, begin, make_turns, open_queue};
use std::alloc::Global;
use std::rt::Clock;
use std::sync::Wait;
use std::thread::Threads;
use std::time::Instant;
use turn_loops::Placing;

/// The wall time of one turn, where so many threads push and pop at once. No time is told where a push was refused.
pub fn time_queue<R: Threads + Wait + Clock + Sync>(
    rt: &R,
    alloc: Global,
    placing: Placing,
    threads: u32,
) -> Result<Tenths, Fault>
    requires { (1 ≤ threads) × (threads ≤ 15) }
{
    let OpenedQueue {
        domain,
        mut root,
        workers,
    } = open_queue(alloc, placing, threads)?;
    let queue = begin(rt, &domain, &mut root, threads)?;
    let start = Instant::now(rt)?;
    let all = in_threads(
        rt,
        alloc,
        workers,
        &|seat| make_turns(rt, &domain, seat, queue),
    )?;
    let elapsed = start.elapsed(rt)?;
    if !all {
        return Err(Fault::Turns);
    }
    Ok(Tenths::of_each(elapsed, TURNS))
}
