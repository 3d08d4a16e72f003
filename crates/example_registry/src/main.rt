//! `example_registry`: two readers look at an entry while a writer replaces it 1,000 times, and see numbers that agree.
//!
//! An entry is a version, two numbers of it, and their sum: the object's kind says that they agree, so each entry that
//! is made has that, and each reader sees the whole of one. The domain has no law. It isn't promised that there is
//! memory.
//!
//! ```text
//! example_registry
//! ```
#![tactic(auto)]

ghost use Rattle.std.specs.Prelude.{◌≡◌, ◌+◌, ◌<◌, ◌≤◌, IfSome, slice_index};
ghost use Rattle.cdrc.specs.seat_life.Free.{IsFree};
ghost use Rattle.cdrc.specs.seat_life.Kinds.{light};

use cdrc::{
    AnyStep, Deleter, Domain, NoLaw, Opened, PayloadKind, Place, Quota, Seat, Shape, close,
    in_threads, leave_all, open_seats, read_value, reap, repeat, settle_and_audit, store_value,
};
use std::alloc::Global;
use std::io;
use std::sync::Wait;
use std::thread::Threads;

/// Entries: word 3 is the sum of words 1 and 2.
struct EntryKind;

impl PayloadKind for EntryKind {
    ghost fits = { λ words. slice_index words 3 ≡ slice_index words 1 + slice_index words 2 };

    ghost weight = { λ words. 0 };

    fn weigh(_entry: &[u64; 16]) -> u64 {
        0
    }

    ghost bounded = { λ words fits. light };
}

type Registry = NoLaw<EntryKind>;

const ENTRY: Place = Place::Cell(0);

/// Seat 0, a writer and two readers; one cell, and more slots than entries are ever made.
const SHAPE: Shape = Shape {
    seats: 4,
    slots: 4096,
    cells: 1,
    weak_cells: 0,
    batch: 8,
};

const QUOTA: Quota = Quota {
    makes: 2000,
    adds: 2000,
};

/// Puts the entry of this version into the cell, and destroys an earlier one that nobody reads any more.
fn publish(domain: &Domain<Registry>, seat: &mut Seat<Registry>, version: u64) -> bool
    requires free { IsFree domain.now seat.old }
    requires there { 0 < domain.now.shape.cells }
    requires version { version ≤ 1000 }
    ensures { IsFree domain.now seat.new }
{
    let mut entry = [0; 16];
    entry[0] = version;
    entry[1] = 2 * version;
    entry[2] = 3 * version;
    entry[3] = 5 * version;
    let stored = store_value(domain, seat, ENTRY, &entry, AnyStep, AnyStep).is_ok();
    let deleter: Deleter<EntryKind, _> = Deleter::keep(|_entry: &[u64; 16]| 0);
    reap(domain, seat, &deleter);
    stored
}

/// The entry, whose numbers agree; `None` where there is none.
fn look<R: Wait>(rt: &R, domain: &Domain<Registry>, seat: &mut Seat<Registry>) -> Option<[u64; 16]>
    requires free { IsFree domain.now seat.old }
    requires there { 0 < domain.now.shape.cells }
    ensures agree { IfSome result (λ entry.
        slice_index entry 3 ≡ slice_index entry 1 + slice_index entry 2) }
    ensures free { IsFree domain.now seat.new }
{
    read_value(rt, domain, seat, ENTRY, AnyStep)
}

/// What the thread of a seat does: the first one writes, the others read. How many of its turns went well.
fn work<R: Wait>(rt: &R, domain: &Domain<Registry>, seat: &mut Seat<Registry>, number: usize) -> u64
    requires free { IsFree domain.now seat.old }
    requires there { 0 < domain.now.shape.cells }
    ensures { IsFree domain.now seat.new }
{
    let write = |seat: &mut Seat<Registry>, turn: u64| publish(domain, seat, turn + 1);
    let read = |seat: &mut Seat<Registry>, _turn: u64| look(rt, domain, seat).is_some();
    if number == 0 {
        repeat(domain, seat, 1000, &write)
    } else {
        repeat(domain, seat, 1000, &read)
    }
}

/// What each thread counted, and how many entries are left.
fn run<R: Threads + Wait + Sync>(rt: &R, alloc: Global) -> Option<(Vec<u64>, u64)> {
    let Ok(opened) = open_seats(alloc, SHAPE, QUOTA, QUOTA, Registry::new()) else {
        return None;
    };
    let Opened {
        domain,
        mut root,
        others,
    } = opened;
    let Ok(()) = store_value(&domain, &mut root, ENTRY, &[0; 16], AnyStep, AnyStep) else {
        return None;
    };
    let body = |seat: &mut Seat<Registry>, number: usize| work(rt, &domain, seat, number);
    let Ok(done) = in_threads(rt, alloc, &domain, others, &body) else {
        return None;
    };
    leave_all(&domain, &mut root, done.seats);
    let deleter: Deleter<EntryKind, _> = Deleter::keep(|_entry: &[u64; 16]| 0);
    let Ok(settled) = settle_and_audit(alloc, &domain, &mut root, &deleter) else {
        return None;
    };
    close(domain, root);
    Some((done.answers, settled.audit.live))
}

fn main(rt: HostRuntime) -> io::Result<()> {
    match run(&rt, rt.alloc()) {
        Some((counts, left)) => println!(rt;
            "entries published, and seen by each reader: {counts:?}; left: {left}"
        ),
        None => println!(rt; "no domain"),
    }
}
