//! Seats in threads.
ghost use Rattle.std.specs.Prelude.{◌≡◌, ◌+◌, ◌-◌, ◌<◌, All, IfOk, OnOk, length};
ghost use Rattle.seat_life.specs.Free.{IsFree};
ghost use Rattle.seat_life.specs.Turns.{KeepsFree, MayServe, Serves};

use domain_audit::{Domain, OutOfMemory, Protocol, Seat};
use std::alloc::Global;
use std::marker::{Send, Sync};
use std::thread;
use std::thread::Threads;

/// What threads are done with: their seats, and what each answered, both in the order in which the seats were given.
#[derive(Drop)]
pub struct Done<S, X> {
    pub seats: Vec<S>,
    pub answers: Vec<X>,
}

/// The last seat becomes the job of a thread, with its index.
fn number_last<P: Protocol>(
    domain: &Domain<P>,
    seats: &mut Vec<Seat<P>>,
    jobs: &mut Vec<(usize, Seat<P>)>,
) -> Result<(), OutOfMemory>
    requires seats { All (IsFree domain.now) seats.old.items }
    requires jobs { All (λ job. IsFree domain.now job.1
        × (job.0 < length seats.old.items + length jobs.old.items)) jobs.old.items }
    ensures seats { All (IsFree domain.now) seats.new.items }
    ensures jobs { OnOk result (All (λ job. IsFree domain.now job.1
        × (job.0 < length seats.new.items + length jobs.new.items)) jobs.new.items) }
    ensures count { OnOk result (length seats.new.items + length jobs.new.items
        ≡ length seats.old.items + length jobs.old.items) }
    ensures fewer { length seats.new.items ≡ length seats.old.items - 1 }
{
    if let Some(seat) = seats.pop() {
        let number = seats.len();
        if let Err(_refused) = jobs.push((number, seat)) {
            return Err(OutOfMemory);
        }
    }
    Ok(())
}

/// The jobs of all threads, the last seat's first.
fn numbered<P: Protocol>(
    alloc: Global,
    domain: &Domain<P>,
    seats: Vec<Seat<P>>,
) -> Result<Vec<(usize, Seat<P>)>, OutOfMemory>
    requires { All (IsFree domain.now) seats.items }
    ensures free { IfOk result (λ jobs. All (λ job. IsFree domain.now job.1
        × (job.0 < length seats.items)) jobs.items) }
    ensures count { IfOk result (λ jobs. length jobs.items ≡ length seats.items) }
{
    let mut seats = seats;
    let mut jobs = Vec::with_capacity(alloc, seats.len())?;
    for _seat in 0..seats.len() {
        number_last(domain, &mut seats, &mut jobs)?;
    }
    Ok(jobs)
}

/// What one thread does.
fn run_job<P: Protocol, X, F: Fn(&mut Seat<P>, usize) -> X>(
    body: &F,
    job: (usize, Seat<P>),
) -> (Seat<P>, X)
    requires { MayServe F.Fn body.now job.0 job.1 }
    ensures { Serves F.Fn body.now job.0 job.1 result.1 result.0 }
{
    let (number, mut seat) = job;
    let answer = body(&mut seat, number);
    (seat, answer)
}

/// What a thread was done with becomes the first of these lists.
fn list_last<P: Protocol, X: Drop>(
    domain: &Domain<P>,
    pairs: &mut Vec<(Seat<P>, X)>,
    done: &mut Done<Seat<P>, X>,
) -> Result<(), OutOfMemory>
    requires pairs { All (λ pair. IsFree domain.now pair.0) pairs.old.items }
    requires done { All (IsFree domain.now) done.old.seats.items }
    ensures pairs { All (λ pair. IsFree domain.now pair.0) pairs.new.items }
    ensures done { OnOk result (All (IsFree domain.now) done.new.seats.items) }
    ensures count { OnOk result (length pairs.new.items + length done.new.seats.items
        ≡ length pairs.old.items + length done.old.seats.items) }
    ensures fewer { length pairs.new.items ≡ length pairs.old.items - 1 }
{
    if let Some((seat, answer)) = pairs.pop() {
        if let Err(_refused) = done.seats.push(seat) {
            return Err(OutOfMemory);
        }
        if let Err(_refused) = done.answers.push(answer) {
            return Err(OutOfMemory);
        }
    }
    Ok(())
}

/// What the threads were done with, in the order of their seats.
fn listed<P: Protocol, X: Drop>(
    alloc: Global,
    domain: &Domain<P>,
    pairs: Vec<(Seat<P>, X)>,
) -> Result<Done<Seat<P>, X>, OutOfMemory>
    requires { All (λ pair. IsFree domain.now pair.0) pairs.items }
    ensures free { IfOk result (λ done. All (IsFree domain.now) done.seats.items) }
    ensures count { IfOk result (λ done. length done.seats.items ≡ length pairs.items) }
{
    let mut pairs = pairs;
    let mut done = Done {
        seats: Vec::with_capacity(alloc, pairs.len())?,
        answers: Vec::with_capacity(alloc, pairs.len())?,
    };
    for _pair in 0..pairs.len() {
        list_last(domain, &mut pairs, &mut done)?;
    }
    Ok(done)
}

/// Runs the body for each seat, in a thread of its own where one can be made, and waits for all of them. The body is
/// told the seat's index among them, from 0 on, and leaves the seat free. On `OutOfMemory`, which comes only of an
/// allocation failure, the seats are lost, and the domain can't be closed any more.
pub fn in_threads<
    P: Protocol + Send + Sync,
    X: Send + Drop,
    R: Threads + Sync,
    F: Fn(&mut Seat<P>, usize) -> X + Sync,
>(
    rt: &R,
    alloc: Global,
    domain: &Domain<P>,
    seats: Vec<Seat<P>>,
    body: &F,
) -> Result<Done<Seat<P>, X>, OutOfMemory>
where
    P::View: Send + Sync,
    P::Kind: Send + Sync,
    requires free { All (IsFree domain.now) seats.items }
    requires keeps { KeepsFree F.Fn domain.now (length seats.items) body.now }
    ensures free { IfOk result (λ done. All (IsFree domain.now) done.seats.items) }
    ensures count { IfOk result (λ done. length done.seats.items ≡ length seats.items) }
{
    let jobs = numbered(alloc, domain, seats)?;
    let pairs = thread::map_vec(
        rt,
        jobs,
        &|job: (usize, Seat<P>)| -> (Seat<P>, X)
            requires { MayServe F.Fn body.now job.0 job.1 }
            ensures { Serves F.Fn body.entry.now job.0 job.1 result.1 result.0 }
        { run_job::<P, X, F>(body, job) },
    )?;
    listed(alloc, domain, pairs)
}
