//! How lanes run in threads.
ghost use Rattle.std.specs.Prelude.{All, IfOk};
ghost use Rattle.lane_work.specs.Sizes.{IsWithinLimits};
ghost use Rattle.lane_work.specs.Work.{IsWork};
ghost use Rattle.cell_domain.specs.Ending.{EndAll, EndsLane};
ghost use Rattle.cell_domain.specs.Jobs.{AnswerAll, CanRun, IsFor};
ghost use Rattle.cell_domain.specs.Opened.{AreLanes, IsDomainFor};

use crate::ending::LaneEnd;
use crate::jobs::{Job, list_jobs};
use cell_lanes::{CellLaw, EpochDomain, EpochSeat, Gate, Lane, Work, run_lane};
use lane_work::OutOfMemory;
use std::alloc::Global;
use std::sync::Wait;
use std::thread;
use std::thread::Threads;

/// What one lane does: it counts its files, in all rounds.
fn run_one<R: Wait, G: Gate>(
    rt: &R,
    alloc: Global,
    domain: &EpochDomain<CellLaw>,
    job: Job,
    gate: &G,
    work: &Work,
    lanes: u32,
) -> LaneEnd
    requires here { IsFor work.now lanes domain.now }
    requires job { CanRun domain.now lanes job }
    ensures { EndsLane domain.now work.now lanes job.number job.seat result }
{
    let Job { number, mut seat } = job;
    let mut lane = Lane::new(alloc, number);
    let end = run_lane(rt, alloc, domain, &mut seat, gate, &mut lane, work, lanes);
    LaneEnd { seat, lane, end }
}

/// Runs each job in a thread of its own, where one can be made.
fn run_jobs<R: Threads + Wait + Sync, G: Gate + Sync>(
    rt: &R,
    alloc: Global,
    domain: &EpochDomain<CellLaw>,
    jobs: Vec<Job>,
    gate: &G,
    work: &Work,
    lanes: u32,
) -> Result<Vec<LaneEnd>, OutOfMemory>
    requires here { IsFor work.now lanes domain.now }
    requires jobs { All (CanRun domain.now lanes) jobs.items }
    ensures { IfOk result (λ ends. AnswerAll domain.now work.now lanes jobs.items ends.items) }
{
    let run = |job: Job| -> LaneEnd
        requires { IsFor work.now lanes domain.now × CanRun domain.now lanes job }
        ensures { EndsLane domain.entry.now work.entry.now lanes job.number job.seat result }
    { run_one(rt, alloc, domain, job, gate, work, lanes) };
    let ends = thread::map_vec(rt, jobs, &run)?;
    Ok(ends)
}

/// Runs the lanes of a domain that was opened for this work and so many lanes, each in a thread of its own where one
/// can be made, and waits for all of them. Lane i has the seat at place i, and counts the files i, i + lanes and so on,
/// in all rounds. What they answer comes in the order of the seats.
///
/// It is refused where there is no memory for the threads or what they answer; then seats are lost. It may wait for
/// other threads.
pub fn run_lanes<R: Threads + Wait + Sync, G: Gate + Sync>(
    rt: &R,
    alloc: Global,
    domain: &EpochDomain<CellLaw>,
    seats: Vec<EpochSeat<CellLaw>>,
    gate: &G,
    work: &Work,
    lanes: u32,
) -> Result<Vec<LaneEnd>, OutOfMemory>
    requires work { IsWork work.now × IsWithinLimits work.now }
    requires domain { IsDomainFor work.now lanes domain.now.shape.slots domain.now }
    requires seats { AreLanes domain.now lanes seats.items }
    ensures { IfOk result (λ ends. EndAll domain.now work.now lanes seats.items ends.items) }
{
    let jobs = list_jobs(alloc, seats)?;
    let ends = run_jobs(rt, alloc, domain, jobs, gate, work, lanes)?;
    Ok(ends)
}
