//! Threads that play acts which seeds draw, on the places of one heap, after which all words are the sums of what is
//! left, and nothing is left once that is cleared.
ghost use Rattle.std.specs.Prelude.{◌≡◌, All, IfOk};
ghost use Rattle.handle_tests.specs.Plays.{IsFree, Plays};

use crate::acts::{Act, Said, Spot};
use crate::draws::Draws;
use crate::opening::{Opened, WIDE, give_up_all, is_empty, open, player_of};
use crate::player::{Objects, Player};
use crate::playing::{play, run, run_deep};
use crate::sums::{ZERO, agrees, references};
use crate::tests::CLEAR;
use control_word::{Domain, OutOfMemory, Quota, Seat, Shape};
use slot_store::leave;
use std::alloc::{AllocError, Global};
use std::sync::Wait;
use std::test::Fail;
use std::thread;
use std::thread::Threads;

const SLOTS: u32 = 2048;

const TURNS: u64 = 200_000;

/// Makes an object around what a cell holds, and stores it into the other one.
fn make_around<R: Wait>(rt: &R, domain: &Domain<Objects>, player: &mut Player)
    requires { Plays domain.now player.old.seat player.old.strongs.items player.old.weaks.items }
    ensures plays { Plays domain.now player.new.seat player.new.strongs.items
        player.new.weaks.items }
    ensures notes { player.new.seat.view.core.notes ≡ player.old.seat.view.core.notes }
{
    let outer = player.strongs.len();
    let Said::Slot(_) = play(rt, domain, player, Act::Make(1)) else {
        return;
    };
    if let Said::Slot(_) = play(rt, domain, player, Act::Load(Spot::Cell(0))) {
        play(rt, domain, player, Act::Store(Spot::Field(outer, 0)));
    }
    play(rt, domain, player, Act::Store(Spot::Cell(1)));
}

/// Plays an act that is drawn, sometimes under snapshots of cell 0. Whether the seat had no add for it.
fn make_turn<R: Wait>(
    rt: &R,
    domain: &Domain<Objects>,
    player: &mut Player,
    draws: &mut Draws,
    weakly: bool,
) -> bool
    requires { Plays domain.now player.old.seat player.old.strongs.items player.old.weaks.items }
    ensures plays { Plays domain.now player.new.seat player.new.strongs.items
        player.new.weaks.items }
    ensures notes { player.new.seat.view.core.notes ≡ player.old.seat.view.core.notes }
{
    let act = if weakly {
        draws.weak_act(SLOTS)
    } else {
        draws.strong_act(SLOTS)
    };
    match draws.below(16) {
        0 => make_around(rt, domain, player),
        1 => {
            let line = [(act, Said::Whatever), (Act::Keep, Said::Whatever)];
            let depth = 1 + draws.below(3);
            let _ = run_deep(rt, domain, player, Spot::Cell(0), depth, &line);
        }
        _ => {
            let answer = play(rt, domain, player, act);
            return answer == Said::Spent || answer == Said::AddsSpent;
        }
    }
    false
}

/// Gives up references of which there are too many, and destroys an object that has ended.
fn tidy<R: Wait>(rt: &R, domain: &Domain<Objects>, player: &mut Player)
    requires { Plays domain.now player.old.seat player.old.strongs.items player.old.weaks.items }
    ensures plays { Plays domain.now player.new.seat player.new.strongs.items
        player.new.weaks.items }
    ensures notes { player.new.seat.view.core.notes ≡ player.old.seat.view.core.notes }
{
    if player.strongs.len() > 8 {
        play(rt, domain, player, Act::Drop);
    }
    if player.weaks.len() > 8 {
        play(rt, domain, player, Act::DropWeak);
    }
    play(rt, domain, player, Act::Reap);
}

/// What a thread is done with: its seat, and how many turns it had no add for.
#[derive(Drop)]
struct Done {
    seat: Seat<Objects>,
    refused: u64,
}

/// What the thread of one seat does; each seat draws other turns.
fn make_turns<R: Wait>(rt: &R, domain: &Domain<Objects>, player: &mut Player, weakly: bool) -> u64
    requires { Plays domain.now player.old.seat player.old.strongs.items player.old.weaks.items }
    ensures plays { Plays domain.now player.new.seat player.new.strongs.items
        player.new.weaks.items }
    ensures notes { player.new.seat.view.core.notes ≡ player.old.seat.view.core.notes }
{
    let mut draws = Draws::new(u64::from(domain.search_start(&player.seat).0));
    let mut refused: u64 = 0;
    for _turn in 0..TURNS {
        if make_turn(rt, domain, player, &mut draws, weakly) {
            refused = refused.saturating_add(1);
        }
        tidy(rt, domain, player);
    }
    refused
}

/// The same, from a seat that is free to one that is free again.
fn work<R: Wait>(
    rt: &R,
    alloc: Global,
    domain: &Domain<Objects>,
    seat: Seat<Objects>,
    weakly: bool,
) -> Done
    requires { IsFree domain.now seat }
    ensures { IsFree domain.now result.seat }
{
    let mut player = player_of(alloc, domain, seat);
    let refused = make_turns(rt, domain, &mut player, weakly);
    give_up_all(domain, &mut player);
    let Player { seat, .. } = player;
    Done { seat, refused }
}

/// Each seat in a thread of its own.
fn work_all<R: Threads + Wait + Sync>(
    rt: &R,
    alloc: Global,
    domain: &Domain<Objects>,
    seats: Vec<Seat<Objects>>,
    weakly: bool,
) -> Result<Vec<Done>, AllocError>
    requires { All (IsFree domain.now) seats.items }
    ensures { IfOk result (λ done. All (λ d. IsFree domain.now d.seat) done.items) }
{
    thread::map_vec(rt, seats, &|seat| work(rt, alloc, domain, seat, weakly))
}

/// The seat of the last thread leaves. How many turns it had no add for, and how many adds it has left.
fn leave_last(
    domain: &Domain<Objects>,
    root: &mut Seat<Objects>,
    done: &mut Vec<Done>,
) -> Option<(u64, u64)>
    requires root { IsFree domain.now root.old × (root.old.view.core.seat ≡ 0) }
    requires done { All (λ d. IsFree domain.now d.seat) done.old.items }
    ensures root { IsFree domain.now root.new × (root.new.view.core.seat ≡ 0) }
    ensures done { All (λ d. IsFree domain.now d.seat) done.new.items }
{
    let Done { seat, refused } = done.pop()?;
    let left = domain.adds_left(&seat);
    leave(domain, root, seat);
    Some((refused, left))
}

/// All seats leave. How many of them have no add left, and had none for a turn; the others had one for each.
fn leave_all(domain: &Domain<Objects>, root: &mut Seat<Objects>, mut done: Vec<Done>) -> Option<u32>
    requires root { IsFree domain.now root.old × (root.old.view.core.seat ≡ 0) }
    requires done { All (λ d. IsFree domain.now d.seat) done.items }
    ensures { IsFree domain.now root.new }
{
    let mut spent: u32 = 0;
    for _seat in 0..done.len() {
        match leave_last(domain, root, &mut done)? {
            (0, _) => {}
            (_, 0) => spent = spent.saturating_add(1),
            _ => return None,
        }
    }
    Some(spent)
}

/// What is left once all threads are done: whether all words are the sums of what is left, and something is, and
/// whether nothing is once that is cleared. `None` where a seat hasn't left.
fn look_at_the_end<R: Wait>(
    rt: &R,
    alloc: Global,
    domain: Domain<Objects>,
    root: Seat<Objects>,
) -> Result<Option<(bool, bool)>, OutOfMemory>
    requires { IsFree domain root }
{
    let mut player = player_of(alloc, &domain, root);
    play(rt, &domain, &mut player, Act::Make(1));
    play(rt, &domain, &mut player, Act::Store(Spot::Cell(0)));
    if !domain.alone(&player.seat) {
        return Ok(None);
    }
    let heap = domain.image(alloc, &mut player.seat)?;
    let (strongs, weaks) = references(alloc, &heap)?;
    let sums = agrees(&heap, &strongs, &weaks);
    let live = heap.slots.iter().any(|slot| slot.strong < ZERO);
    let cleared = run(rt, &domain, &mut player, &CLEAR).is_none();
    if !domain.alone(&player.seat) {
        return Ok(None);
    }
    let heap = domain.image(alloc, &mut player.seat)?;
    let Player { seat, .. } = player;
    domain.close(seat);
    Ok(Some((sums && live, cleared && is_empty(&heap))))
}

/// Few adds, beside which others have enough.
const FEW: Quota = Quota {
    makes: 1 << 40,
    adds: 500,
};

/// The quotas of the seats, whether they use weak references too, and how many of them will have no add left.
const SHARES: [(&[Quota], bool, u32); 3] = [
    (&[WIDE, WIDE, WIDE, WIDE, WIDE], false, 0),
    (&[WIDE, WIDE, WIDE, WIDE, WIDE], true, 0),
    (&[WIDE, WIDE, FEW], true, 1),
];

/// Seat 0 does nothing until all others, each in a thread of its own, are done.
#[test]
fn threads_share_places_and_nothing_is_left(rt: HostRuntime) -> Result<(), Fail> {
    for (quotas, weakly, spent) in SHARES {
        let shape = Shape {
            seats: quotas.len() as u32,
            slots: SLOTS,
            cells: 2,
            weak_cells: 2,
            batch: 16,
        };
        let Opened {
            domain,
            mut root,
            others,
        } = open(rt.alloc(), shape, quotas, &[])?;
        let done = work_all(&rt, rt.alloc(), &domain, others, weakly)?;
        assert_eq!(rt; leave_all(&domain, &mut root, done), Some(spent));
        let end = look_at_the_end(&rt, rt.alloc(), domain, root)?;
        assert_eq!(rt; end, Some((true, true)));
    }
    Ok(())
}
