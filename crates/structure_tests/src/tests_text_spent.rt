//! A seat whose adds are used up makes no record, and loses none; once it has given up what it had it leaves, and
//! nothing is left.
ghost use Rattle.std.specs.Prelude.{◌<◌, All, IfOk};
ghost use Rattle.part_calls.specs.plain_state.Lists.{times};
ghost use Rattle.weak_intern.specs.directory_calls.Directories.{IsOver};
ghost use Rattle.structure_tests.specs.Texts.{HasGrants, HasLeft, IsFree, IsReady, Owns, Spends};

use crate::text_calls::find_once;
use crate::text_opening::{WIDE, settle_texts};
use crate::text_seats::{CELLS, Done, Opened, leave_all, open};
use part_calls::{Domain, OutOfMemory, Quota, Seat, Spent, Strong};
use std::sync::Wait;
use std::test::Fail;
use std::thread;
use std::thread::Threads;
use weak_intern::{Directory, DirectoryLaw, MakeError, copy_strong, draw, drop_strong, intern};

/// Uses an add for a copy that is given up at once. Whether there was one.
fn use_add(domain: &Domain<DirectoryLaw>, seat: &mut Seat<DirectoryLaw>, held: &Strong) -> bool
    requires ready { IsReady domain.now seat.old }
    requires owned { 0 < times held.now.slot seat.old.view.core.owned }
    ensures spends { Spends 0 seat.old seat.new }
    ensures owns { Owns seat.old seat.new }
    ensures ready { IsReady domain.now seat.new }
{
    match copy_strong(domain, seat, held) {
        Ok(more) => {
            drop_strong(domain, seat, more);
            true
        }
        Err(Spent) => false,
    }
}

/// Uses up all adds, of which there are fewer than a hundred.
fn use_up(domain: &Domain<DirectoryLaw>, seat: &mut Seat<DirectoryLaw>, held: &Strong)
    requires ready { IsReady domain.now seat.old }
    requires owned { 0 < times held.now.slot seat.old.view.core.owned }
    ensures spends { Spends 0 seat.old seat.new }
    ensures owns { Owns seat.old seat.new }
    ensures ready { IsReady domain.now seat.new }
{
    for _add in 0..100 {
        if !use_add(domain, seat, held) {
            return;
        }
    }
}

/// What finds of `b` and of `a` answered, and why `b` wasn't interned.
type Told = ([Result<bool, Spent>; 2], Option<MakeError>);

/// Interns `a`, and uses up all adds. What finds and an intern answer then; and `a` is given up.
fn intern_when_spent<R: Wait>(
    rt: &R,
    domain: &Domain<DirectoryLaw>,
    seat: &mut Seat<DirectoryLaw>,
    directory: &Directory,
) -> Option<Told>
    requires ready { IsReady domain.now seat.old }
    requires over { IsOver domain.now domain.now.protocol directory.now }
    requires left { HasLeft 2 seat.old }
    ensures spends { Spends 2 seat.old seat.new }
    ensures ready { IsReady domain.now seat.new }
{
    let record = intern(rt, domain, seat, directory, b"a").ok()?;
    use_up(domain, seat, &record);
    let absent = find_once(rt, domain, seat, directory, b"b").map(|found| found.is_some());
    let there = find_once(rt, domain, seat, directory, b"a").map(|found| found.is_some());
    drop_strong(domain, seat, record);
    let interned = intern(rt, domain, seat, directory, b"b").err();
    Some(([absent, there], interned))
}

/// The same, once the seat has drawn a ticket; and what another draw answers.
fn draw_when_spent<R: Wait>(
    rt: &R,
    domain: &Domain<DirectoryLaw>,
    seat: &mut Seat<DirectoryLaw>,
) -> Option<(Told, bool)>
    requires free { IsFree domain.now seat.old }
    requires grants { HasGrants domain.now }
    ensures { IsFree domain.now seat.new }
{
    let directory = Directory::over(0, CELLS);
    let Ok(ticket) = draw(domain, seat) else {
        return None;
    };
    if ticket >= 4 {
        return None;
    }
    let told = intern_when_spent(rt, domain, seat, &directory)?;
    Some((told, draw(domain, seat).is_err()))
}

/// A text that has no record is found not to have one without an add. One that has is found by one add, of which none
/// is left. Nor is one left for a ticket.
const EXPECTED: (Told, bool) = (([Ok(false), Err(Spent)], Some(MakeError::AddsSpent)), true);

/// What a thread does. It counts as refused where all was as expected.
fn work<R: Wait>(rt: &R, domain: &Domain<DirectoryLaw>, mut seat: Seat<DirectoryLaw>) -> Done
    requires free { IsFree domain.now seat }
    requires grants { HasGrants domain.now }
    ensures { IsFree domain.now result.seat }
{
    let told = draw_when_spent(rt, domain, &mut seat);
    let refused = if told == Some(EXPECTED) { 1 } else { 0 };
    Done { seat, refused }
}

/// Each seat in a thread of its own.
fn work_all<R: Threads + Wait + Sync>(
    rt: &R,
    domain: &Domain<DirectoryLaw>,
    seats: Vec<Seat<DirectoryLaw>>,
) -> Result<Vec<Done>, OutOfMemory>
    requires free { All (IsFree domain.now) seats.items }
    requires grants { HasGrants domain.now }
    ensures { IfOk result (λ done. All (λ d. IsFree domain.now d.seat) done.items) }
{
    thread::map_vec(rt, seats, &|seat| work(rt, domain, seat)).map_err(OutOfMemory::from)
}

const POOR: Quota = Quota { makes: 8, adds: 60 };

/// Four threads use up their adds and are refused, each beside the others.
#[test]
fn a_spent_seat_makes_no_record_and_loses_none(rt: HostRuntime) -> Result<(), Fail> {
    let Opened {
        domain,
        mut root,
        others,
    } = open(rt.alloc(), &[WIDE, POOR, POOR, POOR, POOR])?;
    let done = work_all(&rt, &domain, others)?;
    assert_eq!(rt; leave_all(&domain, &mut root, done), Some(4));
    let left = settle_texts(rt.alloc(), &domain, &mut root)?;
    assert_eq!(rt; left.map(|left| left.1), Some(0));
    Ok(())
}
