//! A reader stays in its region, in a thread of its own, while another seat stores and flushes.
ghost use Rattle.std.specs.Prelude.{All, IfOk, IfSome, OnOk};
ghost use Rattle.epoch_players.specs.Plays.{Plays};

use deleter::{Heap, ZERO};
use epoch_players::Who::{First, Second};
use epoch_players::{
    Act, Line, Objects, Opened, Player, Said, Spot, WIDE, give_back, open, play_on, player_of, run,
    take_last, taken,
};
use epoch_refs::{EpochDomain, EpochShape, e_image, e_leave};
use std::alloc::AllocError;
use std::test::Fail;
use std::thread;
use std::thread::Threads;

const CELLS: u32 = 16;

const STORES: u32 = 100_000;

/// A power of two, and enough for all objects that the writer makes.
const SLOTS: u32 = 131_072;

/// A player, whether it reads or stores, and how many of its acts answered something else than they were to.
#[derive(Drop)]
struct Part {
    player: Player,
    reads: bool,
    wrong: u32,
}

/// One part more.
fn push_part(
    domain: &EpochDomain<Objects>,
    parts: &mut Vec<Part>,
    player: Player,
    reads: bool,
) -> Result<(), AllocError>
    requires plays { Plays domain.now player.seat player.strongs.items player.seen.items
        player.inside }
    requires parts { All (λ part. Plays domain.now part.player.seat part.player.strongs.items
        part.player.seen.items part.player.inside) parts.old.items }
    ensures { OnOk result (All (λ part. Plays domain.now part.player.seat
        part.player.strongs.items part.player.seen.items part.player.inside)
        parts.new.items) }
{
    parts.push(Part {
        player,
        reads,
        wrong: 0,
    })?;
    Ok(())
}

/// Makes an act. 0 where it answers what is expected, else 1.
fn wrong_of(domain: &EpochDomain<Objects>, player: &mut Player, act: Act, expected: Said) -> u32
    requires { Plays domain.now player.old.seat player.old.strongs.items player.old.seen.items
        player.old.inside }
    ensures { Plays domain.now player.new.seat player.new.strongs.items player.new.seen.items
        player.new.inside }
{
    u32::from(play_on(domain, player, act) != expected)
}

/// Makes an object of this weight in some slot, and stores it into the cell.
fn store_new(domain: &EpochDomain<Objects>, player: &mut Player, weight: u32, cell: u32) -> u32
    requires { Plays domain.now player.old.seat player.old.strongs.items player.old.seen.items
        player.old.inside }
    ensures { Plays domain.now player.new.seat player.new.strongs.items player.new.seen.items
        player.new.inside }
{
    let Said::Slot(_) = play_on(domain, player, Act::Make(weight)) else {
        return 1;
    };
    wrong_of(domain, player, Act::Store(Spot::Cell(cell)), Said::Done)
}

/// The writer stores an object into each cell, which weighs the number of the cell and one, and the reader looks at it.
fn prepare(domain: &EpochDomain<Objects>, writer: &mut Player, reader: &mut Player) -> u32
    requires writer { Plays domain.now writer.old.seat writer.old.strongs.items
        writer.old.seen.items writer.old.inside }
    requires reader { Plays domain.now reader.old.seat reader.old.strongs.items
        reader.old.seen.items reader.old.inside }
    ensures writer { Plays domain.now writer.new.seat writer.new.strongs.items
        writer.new.seen.items writer.new.inside }
    ensures reader { Plays domain.now reader.new.seat reader.new.strongs.items
        reader.new.seen.items reader.new.inside }
{
    let mut wrong = wrong_of(domain, reader, Act::Enter, Said::Done);
    for cell in 0..CELLS {
        wrong = wrong.saturating_add(store_new(domain, writer, cell + 1, cell));
        play_on(domain, reader, Act::Look(Spot::Cell(cell)));
        let read = Act::ReadSeen(cell as usize);
        let made = Said::Number(u64::from(cell) + 1);
        wrong = wrong.saturating_add(wrong_of(domain, reader, read, made));
    }
    wrong
}

/// The writer stores a hundred thousand objects, which weigh 100 and more, and flushes after each store: since the
/// region began at epoch 0, the epoch comes to 1 and stays there, and nothing is paid.
fn write_turns(domain: &EpochDomain<Objects>, player: &mut Player) -> u32
    requires { Plays domain.now player.old.seat player.old.strongs.items player.old.seen.items
        player.old.inside }
    ensures { Plays domain.now player.new.seat player.new.strongs.items player.new.seen.items
        player.new.inside }
{
    let mut wrong: u32 = 0;
    for turn in 0..STORES {
        wrong = wrong.saturating_add(store_new(domain, player, 100 + turn, turn % CELLS));
        let flushed = Said::Work(1, 0, 0);
        wrong = wrong.saturating_add(wrong_of(domain, player, Act::Flush, flushed));
    }
    wrong
}

/// The word that the payload of the object in a slot is made of, where `first` is the slot of the first one. While the
/// region is open no slot is given back, so the writer makes one object in each, in order, and after the last slot from
/// slot 0 on.
fn made_in(slot: u32, first: u32) -> u64 {
    let made = slot.wrapping_sub(first) % SLOTS;
    if made < CELLS {
        u64::from(made) + 1
    } else {
        u64::from(made - CELLS) + 100
    }
}

/// Reads everything that the region has seen from this number on. How many payloads aren't as they were made.
fn read_from(domain: &EpochDomain<Objects>, player: &mut Player, first: usize) -> u32
    requires { Plays domain.now player.old.seat player.old.strongs.items player.old.seen.items
        player.old.inside }
    ensures { Plays domain.now player.new.seat player.new.strongs.items player.new.seen.items
        player.new.inside }
{
    let mut wrong: u32 = 0;
    for index in first..player.seen.len().max(first) {
        let made = match (player.seen.first(), player.seen.get(index)) {
            (Some(first), Some(slot)) => made_in(slot.0, first.0),
            _ => 0,
        };
        let read = Act::ReadSeen(index);
        wrong = wrong.saturating_add(wrong_of(domain, player, read, Said::Number(made)));
    }
    wrong
}

/// The reader looks at what stands in each cell by turns, and reads it; and in the end it reads all that it has seen.
fn read_turns(domain: &EpochDomain<Objects>, player: &mut Player) -> u32
    requires { Plays domain.now player.old.seat player.old.strongs.items player.old.seen.items
        player.old.inside }
    ensures { Plays domain.now player.new.seat player.new.strongs.items player.new.seen.items
        player.new.inside }
{
    let mut wrong: u32 = 0;
    for turn in 0..STORES {
        let latest = player.seen.len();
        play_on(domain, player, Act::Look(Spot::Cell(turn % CELLS)));
        wrong = wrong.saturating_add(read_from(domain, player, latest));
    }
    wrong.saturating_add(read_from(domain, player, 0))
}

/// Plays a part.
fn play_part(domain: &EpochDomain<Objects>, part: Part) -> Part
    requires { Plays domain.now part.player.seat part.player.strongs.items
        part.player.seen.items part.player.inside }
    ensures { Plays domain.now result.player.seat result.player.strongs.items
        result.player.seen.items result.player.inside }
{
    let Part {
        mut player,
        reads,
        ..
    } = part;
    let wrong = if reads {
        read_turns(domain, &mut player)
    } else {
        write_turns(domain, &mut player)
    };
    Part {
        player,
        reads,
        wrong,
    }
}

/// Each part in a thread of its own.
fn play_parts<R: Threads + Sync>(
    rt: &R,
    domain: &EpochDomain<Objects>,
    parts: Vec<Part>,
) -> Result<Vec<Part>, AllocError>
    requires { All (λ part. Plays domain.now part.player.seat part.player.strongs.items
        part.player.seen.items part.player.inside) parts.items }
    ensures { IfOk result (λ played. All (λ part. Plays domain.now part.player.seat
        part.player.strongs.items part.player.seen.items part.player.inside) played.items) }
{
    thread::map_vec(rt, parts, &|part| play_part(domain, part))
}

/// The last of these parts.
fn take_part(domain: &EpochDomain<Objects>, parts: &mut Vec<Part>) -> Option<Part>
    requires { All (λ part. Plays domain.now part.player.seat part.player.strongs.items
        part.player.seen.items part.player.inside) parts.old.items }
    ensures parts { All (λ part. Plays domain.now part.player.seat part.player.strongs.items
        part.player.seen.items part.player.inside) parts.new.items }
    ensures last { IfSome result (λ part. Plays domain.now part.player.seat
        part.player.strongs.items part.player.seen.items part.player.inside) }
{
    parts.pop()
}

/// Once both are done: all that left a cell waits. When the region is closed two flushes give all of it up: what left
/// at epoch 0, which weighs 1, and then the other 99,999, which weigh 2 to 16 and 100 to 100,083.
const AFTER: [Line; 9] = [
    (First, Act::Waiting, Said::Number(100_000)),
    (First, Act::Flush, Said::Work(1, 0, 0)),
    (Second, Act::ReadSeen(0), Said::Number(1)),
    (Second, Act::ReadSeen(15), Said::Number(16)),
    (Second, Act::Exit, Said::Done),
    (First, Act::Flush, Said::Work(2, 1, 1)),
    (First, Act::Flush, Said::Work(3, 99_999, 5_008_348_671)),
    (First, Act::Waiting, Said::Number(0)),
    (Second, Act::Waiting, Said::Number(0)),
];

/// Whether each cell has an object, each of these has one reference, and all other slots are free.
fn stands_in_cells(heap: &Heap) -> bool {
    heap.cells.iter().all(|word: &u64| *word != 0)
        && heap
            .slots
            .iter()
            .all(|slot| slot.strong == 1 || slot.strong == ZERO)
        && taken(heap) == CELLS as usize
        && heap.deferred.is_empty()
}

#[test]
fn a_reader_stays_and_what_it_has_seen_is_not_destroyed(rt: HostRuntime) -> Result<(), Fail> {
    let shape = EpochShape {
        seats: 3,
        slots: SLOTS,
        cells: CELLS,
    };
    let Opened {
        domain,
        mut root,
        mut others,
    } = open(rt.alloc(), shape, &[WIDE; 3])?;
    let seat = take_last(&domain, &mut others).expect(&rt, "seat 2");
    let mut reader = player_of(rt.alloc(), &domain, seat);
    let seat = take_last(&domain, &mut others).expect(&rt, "seat 1");
    let mut writer = player_of(rt.alloc(), &domain, seat);
    assert_eq!(rt; prepare(&domain, &mut writer, &mut reader), 0);
    let mut parts = Vec::new(rt.alloc());
    push_part(&domain, &mut parts, writer, false)?;
    push_part(&domain, &mut parts, reader, true)?;
    let mut played = play_parts(&rt, &domain, parts)?;
    let mut reader = take_part(&domain, &mut played).expect(&rt, "the reader");
    let mut writer = take_part(&domain, &mut played).expect(&rt, "the writer");
    assert_eq!(rt; (writer.wrong, reader.wrong), (0, 0));
    assert_eq!(rt;
        run(&domain, &mut writer.player, &mut reader.player, &AFTER),
        None
    );
    e_leave(&domain, &mut root, give_back(&domain, writer.player));
    e_leave(&domain, &mut root, give_back(&domain, reader.player));
    if !domain.alone(&root) {
        panic!(rt; "all others have left");
    }
    let heap = e_image(rt.alloc(), &domain, &mut root)?;
    assert!(rt; stands_in_cells(&heap));
    Ok(())
}
