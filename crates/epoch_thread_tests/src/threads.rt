//! Four threads that look, read, keep, drop, store and flush on the same cells, after which nothing is left.
ghost use Rattle.std.specs.Prelude.{◌≡◌, All, IfOk};
ghost use Rattle.epoch_refs.specs.Walks.{IsFree};
ghost use Rattle.epoch_players.specs.Plays.{Plays};

use epoch_players::{
    Act, Draws, Objects, Opened, Player, Said, Spot, WIDE, clear_all, flush_all, give_back,
    hand_back, is_empty, open, play, player_of,
};
use epoch_refs::{EpochDomain, EpochSeat, EpochShape, e_close, e_image, e_leave};
use std::alloc::{AllocError, Global};
use std::test::Fail;
use std::thread;
use std::thread::Threads;

const CELLS: u32 = 16;

const TURNS: u32 = 1_000;

/// Makes these acts, whatever they answer. Whether one found a payload of two objects.
fn play_all(domain: &EpochDomain<Objects>, player: &mut Player, acts: &[Act]) -> bool
    requires { Plays domain.now player.old.seat player.old.strongs.items player.old.seen.items
        player.old.inside }
    ensures { Plays domain.now player.new.seat player.new.strongs.items player.new.seen.items
        player.new.inside }
{
    let mut torn = false;
    for act in acts {
        if play(domain, player, *act) == Said::Torn {
            torn = true;
        }
    }
    torn
}

/// In a region the player reads what a cell has, and what field 0 of that has, and keeps both.
fn read_turn(domain: &EpochDomain<Objects>, player: &mut Player, cell: Spot) -> bool
    requires { Plays domain.now player.old.seat player.old.strongs.items player.old.seen.items
        player.old.inside }
    ensures { Plays domain.now player.new.seat player.new.strongs.items player.new.seen.items
        player.new.inside }
{
    let acts = [
        Act::Enter,
        Act::Look(cell),
        Act::ReadSeen(0),
        Act::Look(Spot::SeenField(0, 0)),
        Act::ReadSeen(1),
        Act::Keep(1),
        Act::Keep(0),
        Act::ReadSeen(1),
        Act::Exit,
        Act::Read(0),
    ];
    play_all(domain, player, &acts)
}

/// The player makes an object around the first reference that it has, and stores it. Since the object is a new one, and
/// its fields never change once it is stored, no cycle comes about.
fn make_around(domain: &EpochDomain<Objects>, player: &mut Player, cell: Spot)
    requires { Plays domain.now player.old.seat player.old.strongs.items player.old.seen.items
        player.old.inside }
    ensures { Plays domain.now player.new.seat player.new.strongs.items player.new.seen.items
        player.new.inside }
{
    let outer = player.strongs.len();
    if outer == 0 {
        return;
    }
    let Said::Slot(_) = play(domain, player, Act::Make(1)) else {
        return;
    };
    if let Said::Slot(_) = play(domain, player, Act::Copy(0)) {
        play(domain, player, Act::Store(Spot::Field(outer, 0)));
    }
    play(domain, player, Act::Store(cell));
}

/// The player stores what it has kept, or a new object, or one around what it has kept, or null; then it drops the
/// rest, and flushes.
fn store_turn(domain: &EpochDomain<Objects>, player: &mut Player, draws: &mut Draws, cell: Spot)
    requires { Plays domain.now player.old.seat player.old.strongs.items player.old.seen.items
        player.old.inside }
    ensures { Plays domain.now player.new.seat player.new.strongs.items player.new.seen.items
        player.new.inside }
{
    match draws.below(4) {
        0 => {
            play(domain, player, Act::Make(2 + draws.below(1_000)));
            play(domain, player, Act::Store(cell));
        }
        1 => {
            play(domain, player, Act::Store(cell));
        }
        2 => {
            play(domain, player, Act::Clear(cell));
        }
        _ => make_around(domain, player, cell),
    }
    play_all(
        domain,
        player,
        &[Act::Drop, Act::Drop, Act::Drop, Act::Flush],
    );
}

/// What a thread is done with: its seat, and how often it found a payload of two objects.
#[derive(Drop)]
struct Done {
    seat: EpochSeat<Objects>,
    torn: u32,
}

/// What a thread of four does.
fn make_turns(domain: &EpochDomain<Objects>, player: &mut Player) -> u32
    requires { Plays domain.now player.old.seat player.old.strongs.items player.old.seen.items
        player.old.inside }
    ensures { Plays domain.now player.new.seat player.new.strongs.items player.new.seen.items
        player.new.inside }
{
    let mut draws = Draws::new(u64::from(domain.search_start(&player.seat).0));
    let mut torn: u32 = 0;
    for _turn in 0..TURNS {
        let from = Spot::Cell(draws.below(CELLS));
        let to = Spot::Cell(draws.below(CELLS));
        if read_turn(domain, player, from) {
            torn = torn.saturating_add(1);
        }
        store_turn(domain, player, &mut draws, to);
    }
    torn
}

/// The same, from a seat that is free to one that is free again.
fn work(alloc: Global, domain: &EpochDomain<Objects>, seat: EpochSeat<Objects>) -> Done
    requires { IsFree domain.now seat }
    ensures { IsFree domain.now result.seat }
{
    let mut player = player_of(alloc, domain, seat);
    let torn = make_turns(domain, &mut player);
    let seat = give_back(domain, player);
    Done { seat, torn }
}

/// Each seat in a thread of its own.
fn work_all<R: Threads + Sync>(
    rt: &R,
    alloc: Global,
    domain: &EpochDomain<Objects>,
    seats: Vec<EpochSeat<Objects>>,
) -> Result<Vec<Done>, AllocError>
    requires { All (IsFree domain.now) seats.items }
    ensures { IfOk result (λ done. All (λ d. IsFree domain.now d.seat) done.items) }
{
    thread::map_vec(rt, seats, &|seat| work(alloc, domain, seat))
}

/// The last of these seats leaves. How often it found a payload of two objects.
fn leave_last(
    domain: &EpochDomain<Objects>,
    root: &mut EpochSeat<Objects>,
    done: &mut Vec<Done>,
) -> Option<u32>
    requires root { IsFree domain.now root.old × (root.old.view.core.seat ≡ 0) }
    requires done { All (λ d. IsFree domain.now d.seat) done.old.items }
    ensures root { IsFree domain.now root.new × (root.new.view.core.seat ≡ 0) }
    ensures done { All (λ d. IsFree domain.now d.seat) done.new.items }
{
    let Done { seat, torn } = done.pop()?;
    e_leave(domain, root, seat);
    Some(torn)
}

/// All seats leave. How often they found a payload of two objects.
fn leave_all(
    domain: &EpochDomain<Objects>,
    root: &mut EpochSeat<Objects>,
    mut done: Vec<Done>,
) -> u32
    requires root { IsFree domain.now root.old × (root.old.view.core.seat ≡ 0) }
    requires done { All (λ d. IsFree domain.now d.seat) done.items }
    ensures { IsFree domain.now root.new }
{
    let mut all: u32 = 0;
    for _seat in 0..done.len() {
        if let Some(torn) = leave_last(domain, root, &mut done) {
            all = all.saturating_add(torn);
        }
    }
    all
}

/// Seat 0 does nothing until all others, each in a thread of its own, are done. Then it clears the cells and flushes
/// until nothing waits, and nothing is left.
#[test]
fn threads_share_cells_and_nothing_is_left(rt: HostRuntime) -> Result<(), Fail> {
    let shape = EpochShape {
        seats: 5,
        slots: 512,
        cells: CELLS,
    };
    let Opened {
        domain,
        mut root,
        others,
    } = open(rt.alloc(), shape, &[WIDE; 5])?;
    let done = work_all(&rt, rt.alloc(), &domain, others)?;
    assert_eq!(rt; leave_all(&domain, &mut root, done), 0);
    let mut player = player_of(rt.alloc(), &domain, root);
    clear_all(&domain, &mut player);
    flush_all(&domain, &mut player);
    assert_eq!(rt; play(&domain, &mut player, Act::Waiting), Said::Number(0));
    let mut root = hand_back(&domain, player);
    if !domain.alone(&root) {
        panic!(rt; "all others have left");
    }
    let heap = e_image(rt.alloc(), &domain, &mut root)?;
    assert!(rt; is_empty(&heap));
    e_close(domain, root);
    Ok(())
}
