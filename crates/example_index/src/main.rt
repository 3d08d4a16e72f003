//! `example_index`: three threads count the numbers of a list in one map, and a scan tells how often each occurs.
//!
//! The map has a count for each number, and each thread adds to counts while the others do. What is printed is one
//! version of the map, once all threads are done, and how many nodes are left in the end: one for each number. It isn't
//! promised that there is memory.
//!
//! ```text
//! example_index
//! ```
#![tactic(auto)]

ghost use Rattle.std.specs.Prelude.{◌≡◌, ◌≤◌};
ghost use Rattle.cdrc.specs.version_map.Playing.{Plays};
ghost use Rattle.cdrc.specs.version_map.version_reading.Reading.{IsOver};

use cdrc::maps::{Change, MapLaw, VersionMap, WIDE, leave_map, open_map, settle_map, tidy};
use cdrc::{Domain, Opened, Seat, close};
use std::alloc::Global;
use std::sync::Wait;
use std::thread::Threads;
use std::{io, thread};

const NUMBERS: [u64; 12] = [3, 1, 4, 1, 5, 9, 2, 6, 5, 3, 5, 8];

/// The map whose root stands in cell 0.
const INDEX: VersionMap = VersionMap { cell: 0 };

/// What the thread of a seat does: it counts each of the numbers, and destroys nodes of versions that are past.
fn count<R: Wait>(rt: &R, domain: &Domain<MapLaw>, mut seat: Seat<MapLaw>) -> Seat<MapLaw>
    requires plays { Plays domain.now seat }
    requires over { IsOver 0 domain.now }
    ensures { Plays domain.now result }
{
    for index in 0..NUMBERS.len() {
        let _before = INDEX.update(rt, domain, &mut seat, NUMBERS[index], Change::Bump(1));
        tidy(domain, &mut seat, 64);
    }
    seat
}

/// How often each number was counted, and how many nodes are left.
#[derive(Drop)]
struct Report {
    pairs: [(u64, u64); 12],
    count: usize,
    left: u64,
}

/// Three threads count, each with a seat of its own. `None` where there is no memory.
fn run<R: Threads + Wait + Sync>(rt: &R, alloc: Global) -> Option<Report> {
    let Ok(opened) = open_map(alloc, 4, 1024, WIDE, WIDE) else {
        return None;
    };
    let Opened {
        domain,
        mut root,
        others,
    } = opened;
    let Ok(seats) = thread::map_vec(rt, others, &|seat| count(rt, &domain, seat)) else {
        return None;
    };
    let mut pairs = [(0, 0); 12];
    let count = INDEX.range(rt, &domain, &mut root, 0, u64::MAX, &mut pairs);
    leave_map(&domain, &mut root, seats);
    if !domain.alone(&root) {
        return None;
    }
    let Ok(settled) = settle_map(alloc, &domain, &mut root) else {
        return None;
    };
    close(domain, root);
    Some(Report {
        pairs,
        count,
        left: settled.audit.live,
    })
}

fn main(rt: HostRuntime) -> io::Result<()> {
    let Some(report) = run(&rt, rt.alloc()) else {
        println!(rt; "no domain")?;
        return Ok(());
    };
    for index in 0..report.count.min(12) {
        let (number, times) = report.pairs[index];
        println!(rt; "{number}: {times}")?;
    }
    println!(rt; "left: {}", report.left)
}
