//! What the threads of senders and of takers do.
ghost use Rattle.std.specs.Prelude.{◌≡◌, All, IfOk, OnOk};
ghost use Rattle.part_calls.specs.Parts.{as_part};
ghost use Rattle.structure_tests.specs.Ready.{IsFree, IsNew};

use crate::calls::attach;
use crate::letters::Mail;
use crate::sending::send_all;
use crate::taking::take_all;
use crate::tallies::Tally;
use crate::tidying::clear_out;
use hand_queues::{HandQueue, QueueLaw};
use part_calls::{Domain, Left, OutOfMemory, Part, Seat};
use std::alloc::Global;
use std::sync::Wait;
use std::sync::atomic::{AtomicU64, Ordering};
use std::thread;
use std::thread::Threads;

/// How many letters each sender sends.
pub(crate) const LETTERS: u64 = 100_000;

/// What a thread is to do with its seat.
#[derive(Drop)]
pub(crate) enum Role {
    Sender(u64),
    Taker(Tally),
}

/// A thread's seat, and its role.
#[derive(Drop)]
pub(crate) struct Job {
    pub(crate) seat: Seat<Mail>,
    pub(crate) role: Role,
}

/// What a thread did: how many letters it sent, or which it took.
#[derive(Drop)]
pub(crate) enum Told {
    Sent(u64),
    Taken(Tally),
}

/// What a thread is done with.
#[derive(Drop)]
pub(crate) struct Done {
    pub(crate) seat: Seat<Mail>,
    pub(crate) told: Told,
}

/// Adds a job for the last seat.
fn give_job(
    domain: &Domain<Mail>,
    seats: &mut Vec<Seat<Mail>>,
    jobs: &mut Vec<Job>,
    role: Role,
) -> Result<(), OutOfMemory>
    requires seats { All (IsNew domain.now) seats.old.items }
    requires jobs { All (λ job. IsNew domain.now job.seat) jobs.old.items }
    ensures seats { OnOk result (All (IsNew domain.now) seats.new.items) }
    ensures jobs { OnOk result (All (λ job. IsNew domain.now job.seat) jobs.new.items) }
{
    if let Some(seat) = seats.pop() {
        jobs.push(Job { seat, role }).map_err(OutOfMemory::from)?;
    }
    Ok(())
}

/// Jobs for so many senders, and as many takers.
pub(crate) fn give_jobs(
    alloc: Global,
    domain: &Domain<Mail>,
    seats: &mut Vec<Seat<Mail>>,
    senders: u64,
) -> Result<Vec<Job>, OutOfMemory>
    requires seats { All (IsNew domain.now) seats.old.items }
    ensures jobs { IfOk result (λ jobs. All (λ job. IsNew domain.now job.seat) jobs.items) }
    ensures seats { OnOk result (All (IsNew domain.now) seats.new.items) }
{
    let mut jobs = Vec::new(alloc);
    for sender in 0..senders {
        let tally = Tally::new(alloc, senders as usize, LETTERS as usize)?;
        give_job(domain, seats, &mut jobs, Role::Taker(tally))?;
        give_job(domain, seats, &mut jobs, Role::Sender(sender))?;
    }
    Ok(jobs)
}

/// The thread of a sender.
fn work_as_sender<H: HandQueue, R: Wait>(
    rt: &R,
    domain: &Domain<Mail>,
    queue: &H,
    finished: &AtomicU64,
    mut seat: Seat<Mail>,
    sender: u64,
) -> Done
    requires new { IsNew domain.now seat }
    requires queue { H.is_on queue.now
        (as_part ⟦<Mail as Part<QueueLaw, Left>>⟧.part domain.now) }
    ensures { IsFree domain.now result.seat }
{
    attach(rt, domain, &mut seat, queue);
    let sent = send_all(rt, domain, &mut seat, queue, sender, LETTERS);
    finished.fetch_add(1, Ordering::SeqCst);
    clear_out(rt, domain, &mut seat);
    Done {
        seat,
        told: Told::Sent(sent),
    }
}

/// The thread of a taker.
fn work_as_taker<H: HandQueue, R: Wait>(
    rt: &R,
    domain: &Domain<Mail>,
    queue: &H,
    finished: &AtomicU64,
    senders: u64,
    mut seat: Seat<Mail>,
    tally: Tally,
) -> Done
    requires new { IsNew domain.now seat }
    requires queue { H.is_on queue.now
        (as_part ⟦<Mail as Part<QueueLaw, Left>>⟧.part domain.now) }
    ensures { IsFree domain.now result.seat }
{
    attach(rt, domain, &mut seat, queue);
    let mut tally = tally;
    take_all(rt, domain, &mut seat, queue, finished, senders, &mut tally);
    clear_out(rt, domain, &mut seat);
    Done {
        seat,
        told: Told::Taken(tally),
    }
}

/// What one thread does.
fn work<H: HandQueue, R: Wait>(
    rt: &R,
    domain: &Domain<Mail>,
    queue: &H,
    finished: &AtomicU64,
    senders: u64,
    job: Job,
) -> Done
    requires new { IsNew domain.now job.seat }
    requires queue { H.is_on queue.now
        (as_part ⟦<Mail as Part<QueueLaw, Left>>⟧.part domain.now) }
    ensures { IsFree domain.now result.seat }
{
    let Job { seat, role } = job;
    match role {
        Role::Sender(sender) => work_as_sender(rt, domain, queue, finished, seat, sender),
        Role::Taker(tally) => work_as_taker(rt, domain, queue, finished, senders, seat, tally),
    }
}

/// Each job in a thread of its own.
pub(crate) fn work_all<H: HandQueue + Sync, R: Threads + Wait + Sync>(
    rt: &R,
    domain: &Domain<Mail>,
    queue: &H,
    senders: u64,
    jobs: Vec<Job>,
) -> Result<Vec<Done>, OutOfMemory>
    requires new { All (λ job. IsNew domain.now job.seat) jobs.items }
    requires queue { H.is_on queue.now
        (as_part ⟦<Mail as Part<QueueLaw, Left>>⟧.part domain.now) }
    ensures { IfOk result (λ done. All (λ d. IsFree domain.now d.seat) done.items) }
{
    let finished = AtomicU64::new(0);
    thread::map_vec(
        rt,
        jobs,
        &|job| { work(rt, domain, queue, &finished, senders, job) },
    )
    .map_err(OutOfMemory::from)
}
