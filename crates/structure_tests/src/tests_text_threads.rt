//! Four threads that intern texts of one vocabulary and give them up, beside one another.
ghost use Rattle.std.specs.Prelude.{All, IfOk};
ghost use Rattle.structure_tests.specs.Texts.{HasGrants, IsFree, IsReady};

use crate::text_opening::{WIDE, ZERO};
use crate::text_seats::{CELLS, Done, Opened, leave_all, open};
use crate::text_turns::{WORDS, intern_all, make_turns};
use part_calls::{Domain, OutOfMemory, Quota, Seat};
use std::sync::Wait;
use std::test::Fail;
use std::thread;
use std::thread::Threads;
use weak_intern::{Directory, DirectoryLaw, draw};

/// How many texts each thread interns.
const TURNS: u32 = 2000;

/// What the thread of one seat does; the one with the first ticket finds too.
fn work<R: Wait>(rt: &R, domain: &Domain<DirectoryLaw>, mut seat: Seat<DirectoryLaw>) -> Done
    requires free { IsFree domain.now seat }
    requires grants { HasGrants domain.now }
    ensures { IsFree domain.now result.seat }
{
    let directory = Directory::over(0, CELLS);
    let mut refused = TURNS;
    if let Ok(ticket) = draw(domain, &mut seat) {
        if ticket < 4 {
            refused = make_turns(
                rt,
                domain,
                &mut seat,
                &directory,
                TURNS,
                ticket,
                ticket == 0,
            );
        }
    }
    Done { seat, refused }
}

/// Each seat in a thread of its own.
fn work_all<R: Threads + Wait + Sync>(
    rt: &R,
    domain: &Domain<DirectoryLaw>,
    seats: Vec<Seat<DirectoryLaw>>,
) -> Result<Vec<Done>, OutOfMemory>
    requires free { All (IsFree domain.now) seats.items }
    requires grants { HasGrants domain.now }
    ensures { IfOk result (λ done. All (λ d. IsFree domain.now d.seat) done.items) }
{
    thread::map_vec(rt, seats, &|seat| work(rt, domain, seat)).map_err(OutOfMemory::from)
}

/// Draws the last ticket, and interns and finds each text. How many were found.
fn intern_last<R: Wait>(rt: &R, domain: &Domain<DirectoryLaw>, root: &mut Seat<DirectoryLaw>) -> u32
    requires root { IsFree domain.now root.old }
    requires grants { HasGrants domain.now }
    ensures { IsReady domain.now root.new }
{
    let directory = Directory::over(0, CELLS);
    if let Ok(4) = draw(domain, root) {
        intern_all(rt, domain, root, &directory)
    } else {
        0
    }
}

/// Adds for some hundreds of texts, of the last thread's seat.
const FEW: Quota = Quota {
    makes: 1 << 40,
    adds: 3000,
};

/// The quotas of the seats, and how many of the threads had an intern refused.
const SHARES: [([Quota; 5], u32); 2] = [
    ([WIDE, WIDE, WIDE, WIDE, WIDE], 0),
    ([WIDE, WIDE, WIDE, WIDE, FEW], 1),
];

/// At most one live record has each text: seat 0 interns each once, and then no other slot lives.
#[test]
fn each_text_has_one_live_record(rt: HostRuntime) -> Result<(), Fail> {
    for (quotas, refused) in SHARES {
        let Opened {
            domain,
            mut root,
            others,
        } = open(rt.alloc(), &quotas)?;
        let done = work_all(&rt, &domain, others)?;
        assert_eq!(rt; leave_all(&domain, &mut root, done), Some(refused));
        assert_eq!(rt; intern_last(&rt, &domain, &mut root), WORDS);
        if !domain.alone(&root) {
            panic!(rt; "all others have left");
        }
        let heap = domain.image(rt.alloc(), &mut root)?;
        let live = heap.slots.iter().filter(|slot| slot.strong < ZERO).count();
        assert_eq!(rt; live, WORDS as usize);
    }
    Ok(())
}
