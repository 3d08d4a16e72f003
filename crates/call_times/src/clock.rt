//! The time of a turn.
ghost use Rattle.std.specs.Prelude.{◌<◌, ◌≤◌};

use crate::fault::Fault;
use crate::jobs::in_threads;
use std::alloc::Global;
use std::rt::Clock;
use std::sync::Wait;
use std::thread::Threads;
use std::time::{Duration, Instant};
use turn_loops::{Opened, Operation, Placing, begin, make_turns, open};

/// Tenths of a nanosecond.
#[derive(Clone, Copy, PartialEq, Eq, Debug, Drop)]
pub struct Tenths(pub u128);

impl Tenths {
    /// The time of one of so many turns, which took this time together.
    pub fn of_each(elapsed: Duration, turns: u64) -> Tenths
        requires { 0 < turns }
    {
        Tenths(elapsed.as_nanos() * 10 / u128::from(turns))
    }
}

/// The wall time of one turn of the operation, where so many threads make its turns at once. No time is told where a
/// turn was refused.
pub fn time<R: Threads + Wait + Clock + Sync>(
    rt: &R,
    alloc: Global,
    operation: Operation,
    placing: Placing,
    threads: u32,
) -> Result<Tenths, Fault>
    requires { (1 ≤ threads) × (threads ≤ 15) }
{
    let Opened {
        domain,
        mut root,
        workers,
    } = open(alloc, placing, threads)?;
    begin(&domain, &mut root);
    let start = Instant::now(rt)?;
    let all = in_threads(
        rt,
        alloc,
        workers,
        &|seat| make_turns(rt, &domain, seat, operation),
    )?;
    let elapsed = start.elapsed(rt)?;
    if !all {
        return Err(Fault::Turns);
    }
    Ok(Tenths::of_each(elapsed, operation.turns()))
}
