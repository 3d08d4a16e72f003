//! How lanes run in threads.
ghost use Rattle.std.specs.Prelude.{◌^◌, ◌<◌, All, IfOk, length};
ghost use Rattle.lane_files.specs.deleter.Weighing.{Weighs};
ghost use Rattle.lane_files.specs.Lanes.{HasGrants};
ghost use Rattle.lane_files.specs.Work.{IsWork};
ghost use Rattle.lane_domain.specs.Beginning.{CanBegin};
ghost use Rattle.lane_domain.specs.Ending.{EndAll, EndsLane};
ghost use Rattle.lane_domain.specs.Jobs.{AnswerAll, is_payload, weight_of};

use crate::ending::LaneEnd;
use crate::jobs::{Job, list_jobs};
use lane_files::{
    Deleter, Domain, Gate, HandQueue, Lane, Left, NodeKind, OutOfMemory, PairKind, PayloadKind,
    RecordKind, Seat, Shared, WordsLaw, Work, run_lane,
};
use std::alloc::Global;
use std::sync::Wait;
use std::thread;
use std::thread::Threads;

/// What one lane does: it attaches its seat, and counts files until no ticket is left.
fn run_one<R: Wait, G: Gate, F: Fn(&[u64; 16]) -> u64>(
    rt: &R,
    alloc: Global,
    domain: &Domain<WordsLaw>,
    job: Job,
    shared: &Shared,
    gate: &G,
    weigh: &Deleter<PairKind<NodeKind, RecordKind>, F>,
    work: &Work,
) -> LaneEnd
    requires begin { CanBegin domain.now shared.now job.seat }
    requires weighs { Weighs ⟦<PairKind<NodeKind, RecordKind> as PayloadKind>⟧.fits
        ⟦<PairKind<NodeKind, RecordKind> as PayloadKind>⟧.weight F.Fn weigh.now }
    requires work { IsWork work.now }
    requires grants { HasGrants domain.now work.now }
    ensures { EndsLane ⟦<PairKind<NodeKind, RecordKind> as PayloadKind>⟧.fits domain.now shared.now
        work.now job.number job.seat result }
{
    let Job { number, mut seat } = job;
    shared
        .queue
        .attach::<Left, WordsLaw, R>(rt, domain, &mut seat);
    let mut lane = Lane::new(alloc, number);
    let end = run_lane(rt, domain, &mut seat, shared, gate, weigh, &mut lane, work);
    LaneEnd { seat, lane, end }
}

/// Runs each job in a thread of its own, where one can be made.
fn run_jobs<R: Threads + Wait + Sync, G: Gate + Sync, F: Fn(&[u64; 16]) -> u64 + Sync>(
    rt: &R,
    alloc: Global,
    domain: &Domain<WordsLaw>,
    jobs: Vec<Job>,
    shared: &Shared,
    gate: &G,
    weigh: &Deleter<PairKind<NodeKind, RecordKind>, F>,
    work: &Work,
) -> Result<Vec<LaneEnd>, OutOfMemory>
    requires begin { All (λ job. CanBegin domain.now shared.now job.seat) jobs.items }
    requires weighs { Weighs ⟦<PairKind<NodeKind, RecordKind> as PayloadKind>⟧.fits
        ⟦<PairKind<NodeKind, RecordKind> as PayloadKind>⟧.weight F.Fn weigh.now }
    requires work { IsWork work.now }
    requires grants { HasGrants domain.now work.now }
    ensures { IfOk result (λ ends. AnswerAll
        ⟦<PairKind<NodeKind, RecordKind> as PayloadKind>⟧.fits domain.now shared.now work.now
        jobs.items ends.items) }
{
    let run = |job: Job| -> LaneEnd
        requires { CanBegin domain.now shared.now job.seat
            × Weighs is_payload weight_of F.Fn weigh.now × IsWork work.now
            × HasGrants domain.now work.now }
        ensures { EndsLane is_payload domain.entry.now shared.entry.now work.entry.now job.number
            job.seat result }
    { run_one(rt, alloc, domain, job, shared, gate, weigh, work) };
    let ends = thread::map_vec(rt, jobs, &run)?;
    Ok(ends)
}

/// Runs a lane for each seat, each in a thread of its own where one can be made, and waits for all of them. Each
/// attaches its seat, and counts the files whose tickets it draws; its number is the seat's place in the list. What
/// they answer comes in the order of the seats.
///
/// It is refused where there is no memory for the threads or what they answer; then seats are lost. It may wait for
/// other threads.
pub fn run_lanes<R: Threads + Wait + Sync, G: Gate + Sync, F: Fn(&[u64; 16]) -> u64 + Sync>(
    rt: &R,
    alloc: Global,
    domain: &Domain<WordsLaw>,
    seats: Vec<Seat<WordsLaw>>,
    shared: &Shared,
    gate: &G,
    weigh: &Deleter<PairKind<NodeKind, RecordKind>, F>,
    work: &Work,
) -> Result<Vec<LaneEnd>, OutOfMemory>
    requires begin { All (CanBegin domain.now shared.now) seats.items }
    requires few { length seats.items < 2 ^ 32 }
    requires weighs { Weighs ⟦<PairKind<NodeKind, RecordKind> as PayloadKind>⟧.fits
        ⟦<PairKind<NodeKind, RecordKind> as PayloadKind>⟧.weight F.Fn weigh.now }
    requires work { IsWork work.now }
    requires grants { HasGrants domain.now work.now }
    ensures { IfOk result (λ ends. EndAll
        ⟦<PairKind<NodeKind, RecordKind> as PayloadKind>⟧.fits domain.now shared.now work.now
        seats.items ends.items) }
{
    let jobs = list_jobs(alloc, seats)?;
    let ends = run_jobs(rt, alloc, domain, jobs, shared, gate, weigh, work)?;
    Ok(ends)
}
