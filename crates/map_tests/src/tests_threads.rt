//! Threads that add to the numbers of one map and scan it, and what is left in the end.
ghost use Rattle.std.specs.Prelude.{◌≡◌, All, IfOk};
ghost use Rattle.map_life.specs.version_map.Playing.{Plays};
ghost use Rattle.map_life.specs.version_map.version_reading.Reading.{IsOver};

use crate::calls::{change, read, scan, tidy};
use map_life::{
    Change, Domain, MapLaw, Opened, OutOfMemory, Seat, WIDE, leave_map, open_map, settle_map,
};
use std::alloc::{AllocError, Global};
use std::sync::Wait;
use std::test::Fail;
use std::thread;
use std::thread::Threads;

/// The keys 0 to 4 have the numbers. So each thread adds 80 to each of them.
const KEYS: u64 = 5;

const TURNS: u64 = 400;

/// The number of this key counts the scans that went wrong.
const FAULTS: u64 = 1000;

/// The sum of the numbers of pairs, where these are in ascending order of their keys.
fn sum_of(pairs: &[(u64, u64)]) -> Option<u64> {
    let mut sum: u64 = 0;
    let mut last = None;
    for (key, number) in pairs {
        if last >= Some(*key) {
            return None;
        }
        last = Some(*key);
        sum = sum.saturating_add(*number);
    }
    Some(sum)
}

/// Scans the numbers. Their sum, where they are in order, and it is at least that of an earlier scan.
fn next_sum<R: Wait>(
    rt: &R,
    domain: &Domain<MapLaw>,
    seat: &mut Seat<MapLaw>,
    least: u64,
) -> Option<u64>
    requires plays { Plays domain.now seat.old }
    requires over { IsOver 0 domain.now }
    ensures { Plays domain.now seat.new }
{
    let mut out = [(0, 0); 8];
    let count = scan(rt, domain, seat, 0, KEYS, &mut out);
    let sum = sum_of(&out[..count.min(8)])?;
    if sum < least { None } else { Some(sum) }
}

/// What the thread of a seat does: it adds one to each number in turn, and scans all of them after each.
fn work<R: Wait>(rt: &R, domain: &Domain<MapLaw>, mut seat: Seat<MapLaw>) -> Seat<MapLaw>
    requires plays { Plays domain.now seat }
    requires over { IsOver 0 domain.now }
    ensures { Plays domain.now result }
{
    let mut least = 0;
    for turn in 0..TURNS {
        let added = change(rt, domain, &mut seat, turn % KEYS, Change::Bump(1));
        tidy(domain, &mut seat);
        match (added, next_sum(rt, domain, &mut seat, least)) {
            (Ok(_), Some(sum)) => least = sum,
            _ => {
                let _counted = change(rt, domain, &mut seat, FAULTS, Change::Bump(1));
            }
        }
    }
    seat
}

/// Each seat in a thread of its own.
fn work_all<R: Threads + Wait + Sync>(
    rt: &R,
    domain: &Domain<MapLaw>,
    seats: Vec<Seat<MapLaw>>,
) -> Result<Vec<Seat<MapLaw>>, AllocError>
    requires plays { All (Plays domain.now) seats.items }
    requires over { IsOver 0 domain.now }
    ensures { IfOk result (λ done. All (Plays domain.now) done.items) }
{
    thread::map_vec(rt, seats, &|seat| work(rt, domain, seat))
}

/// The numbers, and how many scans went wrong.
fn numbers<R: Wait>(
    rt: &R,
    domain: &Domain<MapLaw>,
    seat: &mut Seat<MapLaw>,
) -> ([Option<u64>; 5], Option<u64>)
    requires plays { Plays domain.now seat.old × (seat.old.view.core.seat ≡ 0) }
    requires over { IsOver 0 domain.now }
    ensures { Plays domain.now seat.new × (seat.new.view.core.seat ≡ 0) }
{
    let mut found = [None; 5];
    for key in 0..5 {
        found[key] = read(rt, domain, seat, key as u64);
    }
    (found, read(rt, domain, seat, FAULTS))
}

/// How many objects live once all seats have left and all that may be destroyed is; `None` where a seat hasn't left.
fn left_over(
    alloc: Global,
    domain: &Domain<MapLaw>,
    root: &mut Seat<MapLaw>,
    seats: Vec<Seat<MapLaw>>,
) -> Result<Option<u64>, OutOfMemory>
    requires root { Plays domain.now root.old × (root.old.view.core.seat ≡ 0) }
    requires seats { All (Plays domain.now) seats.items }
    requires over { IsOver 0 domain.now × (domain.now.shape.cells ≡ 1) }
{
    leave_map(domain, root, seats);
    if !domain.alone(root) {
        return Ok(None);
    }
    let settled = settle_map(alloc, domain, root)?;
    Ok(Some(settled.audit.live))
}

/// What lives in the end are the nodes of the last version, one for each key.
#[test]
fn threads_add_and_scan_and_the_tree_is_left(rt: HostRuntime) -> Result<(), Fail> {
    let Opened {
        domain,
        mut root,
        others,
    } = open_map(rt.alloc(), 4, 2048, WIDE, WIDE)?;
    let seats = work_all(&rt, &domain, others)?;
    let found = numbers(&rt, &domain, &mut root);
    assert_eq!(rt; found, ([Some(240); 5], None));
    let left = left_over(rt.alloc(), &domain, &mut root, seats)?;
    assert_eq!(rt; left, Some(5));
    Ok(())
}
