//! A cache that two threads ask before they make a value anew.
ghost use Rattle.std.specs.Prelude.{◌≡◌, ◌<◌, All, IfOk, IfSome};
ghost use Rattle.cdrc.specs.plain_state.Lists.{times};
ghost use Rattle.example_threads.specs.Free.{IsFree};

use crate::counted::Counted;
use crate::domains::{end, leave_all, open};
use crate::fault::Fault;
use crate::numbers::{NumberKind, TURNS, payload_of};
use cdrc::{
    Audit, Deleter, Domain, OutOfMemory, Seat, Spares, Strong, drop_strong, make, read, reap,
};
use example_cache::{CacheLaw, recall, remember};
use std::alloc::Global;
use std::thread;
use std::thread::Threads;

type Cache = CacheLaw<NumberKind>;

const CELL: u32 = 0;

/// What is remembered, if its object lives; else a value that is made anew, and remembered.
fn find_or_make(domain: &Domain<Cache>, seat: &mut Seat<Cache>, number: u64) -> Option<Strong>
    requires free { IsFree domain.now seat.old }
    requires cell { domain.now.protocol.cell ≡ 0 }
    requires there { 0 < domain.now.shape.weak_cells }
    ensures free { IsFree domain.now seat.new }
    ensures owned { IfSome result (λ strong. 0 < times strong.slot seat.new.view.core.owned) }
{
    if let Ok(Some(strong)) = recall(domain, seat, CELL) {
        return Some(strong);
    }
    let strong = make(domain, seat, &payload_of(number), Spares).ok()?;
    let _remembered = remember(domain, seat, CELL, &strong);
    Some(strong)
}

/// What one thread does. It hands its seat back.
fn work(domain: &Domain<Cache>, mut seat: Seat<Cache>) -> (Seat<Cache>, Counted)
    requires free { IsFree domain.now seat }
    requires cell { domain.now.protocol.cell ≡ 0 }
    requires there { 0 < domain.now.shape.weak_cells }
    ensures { IsFree domain.now result.0 }
{
    let deleter: Deleter<NumberKind, _> = Deleter::keep(|_payload: &[u64; 16]| 0);
    let mut counted = Counted::new();
    for number in 1..=TURNS {
        if let Some(strong) = find_or_make(domain, &mut seat, number) {
            counted.found(read(domain, &mut seat, strong.slot(), 0));
            drop_strong(domain, &mut seat, strong);
            counted.turn();
        }
        reap(domain, &mut seat, &deleter);
    }
    (seat, counted)
}

/// Each seat in a thread of its own.
fn work_all<R: Threads + Sync>(
    rt: &R,
    domain: &Domain<Cache>,
    seats: Vec<Seat<Cache>>,
) -> Result<Vec<(Seat<Cache>, Counted)>, OutOfMemory>
    requires free { All (IsFree domain.now) seats.items }
    requires cell { domain.now.protocol.cell ≡ 0 }
    requires there { 0 < domain.now.shape.weak_cells }
    ensures { IfOk result (λ done. All (λ d. IsFree domain.now d.0) done.items) }
{
    thread::map_vec(rt, seats, &|seat| work(domain, seat)).map_err(OutOfMemory::from)
}

/// Two threads ask the cache. What they counted, and what is left: nothing, since the cache keeps nothing alive.
pub fn run<R: Threads + Sync>(rt: &R, alloc: Global) -> Result<(Counted, Audit), Fault> {
    let (domain, mut root, seats) = open(alloc, Cache::new(CELL))?;
    let done = work_all(rt, &domain, seats)?;
    let all = leave_all(&domain, &mut root, done);
    let deleter: Deleter<NumberKind, _> = Deleter::keep(|_payload: &[u64; 16]| 0);
    let left = end(alloc, domain, root, &deleter)?;
    Ok((all, left))
}
