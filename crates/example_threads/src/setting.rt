//! A setting that two threads store and read.
ghost use Rattle.std.specs.Prelude.{◌≡◌, ◌<◌, All, IfOk};
ghost use Rattle.example_threads.specs.Free.{IsFree};

use crate::counted::Counted;
use crate::domains::{end as end_domain, leave_all, open};
use crate::fault::Fault;
use crate::numbers::{NumberKind, TURNS, payload_of};
use cdrc::{Audit, Deleter, Domain, OutOfMemory, Seat, end, read, reap};
use example_setting::{SettingLaw, read_value, store_value};
use std::alloc::Global;
use std::thread;
use std::thread::Threads;

type Setting = SettingLaw<NumberKind>;

const CELL: u32 = 0;

/// Stores the number, and destroys what was stored before, once nobody reads it.
fn store_number(domain: &Domain<Setting>, seat: &mut Seat<Setting>, number: u64) -> bool
    requires free { IsFree domain.now seat.old }
    requires cell { domain.now.protocol.cell ≡ 0 }
    requires there { 0 < domain.now.shape.cells }
    ensures { IsFree domain.now seat.new }
{
    let deleter: Deleter<NumberKind, _> = Deleter::keep(|_payload: &[u64; 16]| 0);
    let stored = store_value(domain, seat, CELL, &payload_of(number));
    reap(domain, seat, &deleter);
    stored.is_ok()
}

/// The number that is stored, under a snapshot; `None` where there is none, or the cell changed meanwhile.
fn read_number(domain: &Domain<Setting>, seat: &mut Seat<Setting>) -> Option<u64>
    requires free { IsFree domain.now seat.old }
    requires cell { domain.now.protocol.cell ≡ 0 }
    requires there { 0 < domain.now.shape.cells }
    ensures { IsFree domain.now seat.new }
{
    let seen = read_value(domain, seat, CELL).ok()??;
    let number = read(domain, seat, seen.slot(), 0);
    end(domain, seat, seen);
    Some(number)
}

/// What one thread does. It hands its seat back.
fn work(domain: &Domain<Setting>, mut seat: Seat<Setting>) -> (Seat<Setting>, Counted)
    requires free { IsFree domain.now seat }
    requires cell { domain.now.protocol.cell ≡ 0 }
    requires there { 0 < domain.now.shape.cells }
    ensures { IsFree domain.now result.0 }
{
    let mut counted = Counted::new();
    for number in 1..=TURNS {
        if store_number(domain, &mut seat, number) {
            counted.turn();
        }
        if let Some(found) = read_number(domain, &mut seat) {
            counted.found(found);
        }
    }
    (seat, counted)
}

/// Each seat in a thread of its own.
fn work_all<R: Threads + Sync>(
    rt: &R,
    domain: &Domain<Setting>,
    seats: Vec<Seat<Setting>>,
) -> Result<Vec<(Seat<Setting>, Counted)>, OutOfMemory>
    requires free { All (IsFree domain.now) seats.items }
    requires cell { domain.now.protocol.cell ≡ 0 }
    requires there { 0 < domain.now.shape.cells }
    ensures { IfOk result (λ done. All (λ d. IsFree domain.now d.0) done.items) }
{
    thread::map_vec(rt, seats, &|seat| work(domain, seat)).map_err(OutOfMemory::from)
}

/// Two threads store and read. What they counted, and what is left: the value that was stored last.
pub fn run<R: Threads + Sync>(rt: &R, alloc: Global) -> Result<(Counted, Audit), Fault> {
    let (domain, mut root, seats) = open(alloc, Setting::new(CELL))?;
    let done = work_all(rt, &domain, seats)?;
    let all = leave_all(&domain, &mut root, done);
    let deleter: Deleter<NumberKind, _> = Deleter::keep(|_payload: &[u64; 16]| 0);
    let left = end_domain(alloc, domain, root, &deleter)?;
    Ok((all, left))
}
