//! A seat that stores while others are under snapshots that never end, and one that ends an object which another one
//! counts meanwhile.
ghost use Rattle.std.specs.Prelude.{◌≡◌, All, IfOk};
ghost use Rattle.control_word.specs.core_events.Steps.{HasRoom};
ghost use Rattle.control_word.specs.acquire_retire.Calls.{IsOf};
ghost use Rattle.control_word.specs.Resting.{IsAtRest};
ghost use Rattle.handle_tests.specs.Plays.{IsFree, Plays};

use crate::acts::{Act, Said, Spot, WeakSpot};
use crate::counting_acts::{count_by, upgrade};
use crate::opening::{Opened, WIDE, open, player_of, take_last};
use crate::place_acts::store;
use crate::player::{Objects, Player, take_strong};
use crate::playing::{Line, run};
use crate::slot_acts::{make, reap};
use control_word::{AnyStep, Domain, Outcome, Place, Seat, Shape};
use snapshot_ptr::{counted, try_snapshot};
use std::alloc::{AllocError, Global};
use std::test::Fail;

/// Makes an object, and stores it into the cell.
fn store_new(domain: &Domain<Objects>, player: &mut Player, cell: u32)
    requires { Plays domain.now player.old.seat player.old.strongs.items player.old.weaks.items }
    ensures { Plays domain.now player.new.seat player.new.strongs.items player.new.weaks.items }
{
    make(domain, player, 1);
    store(domain, player, Spot::Cell(cell));
}

/// Comes under a snapshot of what cell 0 holds, which never ends, and tells whether it isn't counted.
fn hold(domain: &Domain<Objects>, seat: &mut Seat<Objects>) -> bool
    requires rest { IsAtRest domain.now seat.old }
    requires room { HasRoom seat.old.view.core }
    ensures rest { IsAtRest domain.now seat.new }
    ensures room { HasRoom seat.new.view.core }
{
    if domain.shape().cells == 0 {
        return false;
    }
    match try_snapshot(domain, seat, Place::Cell(0), AnyStep) {
        Ok(Some(snapshot)) => !counted(&snapshot),
        _ => false,
    }
}

/// The seat comes under three snapshots, each of another object that the player stored. How many aren't counted.
fn hold_thrice(domain: &Domain<Objects>, player: &mut Player, seat: &mut Seat<Objects>) -> u32
    requires plays { Plays domain.now player.old.seat player.old.strongs.items player.old.weaks.items }
    requires free { IsFree domain.now seat.old }
    ensures plays { Plays domain.now player.new.seat player.new.strongs.items player.new.weaks.items }
    ensures of { IsOf domain.now seat.new }
{
    let mut uncounted: u32 = 0;
    for _look in 0..3 {
        store_new(domain, player, 0);
        if hold(domain, seat) {
            uncounted = uncounted.saturating_add(1);
        }
    }
    uncounted
}

/// The last of these seats does so, and joins those that hold snapshots. How many of its snapshots aren't counted.
fn hold_next(
    domain: &Domain<Objects>,
    player: &mut Player,
    seats: &mut Vec<Seat<Objects>>,
    held: &mut Vec<Seat<Objects>>,
) -> Result<u32, AllocError>
    requires plays { Plays domain.now player.old.seat player.old.strongs.items player.old.weaks.items }
    requires free { All (IsFree domain.now) seats.old.items }
    requires of { All (IsOf domain.now) held.old.items }
    ensures plays { Plays domain.now player.new.seat player.new.strongs.items player.new.weaks.items }
    ensures free { All (IsFree domain.now) seats.new.items }
    ensures of { All (IsOf domain.now) held.new.items }
{
    let Some(mut seat) = take_last(domain, seats) else {
        return Ok(0);
    };
    let uncounted = hold_thrice(domain, player, &mut seat);
    held.push(seat)?;
    Ok(uncounted)
}

/// Each of these seats does so. How many snapshots aren't counted.
fn hold_all(
    alloc: Global,
    domain: &Domain<Objects>,
    player: &mut Player,
    mut seats: Vec<Seat<Objects>>,
) -> Result<(Vec<Seat<Objects>>, u32), AllocError>
    requires plays { Plays domain.now player.old.seat player.old.strongs.items player.old.weaks.items }
    requires free { All (IsFree domain.now) seats.items }
    ensures plays { Plays domain.now player.new.seat player.new.strongs.items player.new.weaks.items }
    ensures of { IfOk result (λ held. All (IsOf domain.now) held.0.items) }
{
    let mut held = Vec::new(alloc);
    let mut uncounted: u32 = 0;
    for _seat in 0..seats.len() {
        uncounted = uncounted.saturating_add(hold_next(domain, player, &mut seats, &mut held)?);
    }
    Ok((held, uncounted))
}

/// How many entries these seats have deferred.
fn deferred_by(domain: &Domain<Objects>, seats: &[Seat<Objects>]) -> u32
    requires { All (IsOf domain.now) seats.now }
{
    let mut deferred: u32 = 0;
    for seat in seats {
        deferred = deferred.saturating_add(domain.deferred(seat));
    }
    deferred
}

/// Stores so many new objects into two cells, and destroys what has ended: the most entries that the player had
/// deferred after one, and the most that all had.
fn store_beside(
    domain: &Domain<Objects>,
    player: &mut Player,
    others: &[Seat<Objects>],
    stores: u32,
) -> (u32, u32)
    requires plays { Plays domain.now player.old.seat player.old.strongs.items player.old.weaks.items }
    requires of { All (IsOf domain.now) others.now }
    ensures { Plays domain.now player.new.seat player.new.strongs.items player.new.weaks.items }
{
    let mut most = (0, 0);
    for turn in 0..stores {
        store_new(domain, player, turn % 2);
        let own = domain.deferred(&player.seat);
        let all = own.saturating_add(deferred_by(domain, others));
        most = (own.max(most.0), all.max(most.1));
        // A reap that finds nothing ripe would scan, and so the seat would never have as many entries as it may.
        if domain.next_ripe(&player.seat).is_some() {
            reap(domain, player);
        }
    }
    most
}

/// How many seats there are, the batch, and how often one of them stores: it defers as many entries as there are
/// announcement words, and a batch, at most, and all seats together so many each.
const BESIDE: [(u32, u32, u32, (u32, u32)); 2] = [
    (3, 12, 1000, (24, 72)),
    (32, 1, 100_000, (129, 4128)),
];

#[test]
fn snapshots_that_last_let_a_seat_defer_no_more(rt: HostRuntime) -> Result<(), Fail> {
    for (seats, batch, stores, (own, all)) in BESIDE {
        let shape = Shape {
            seats,
            slots: 1024,
            cells: 2,
            weak_cells: 0,
            batch,
        };
        let quotas = vec![in rt.alloc(); WIDE; seats as usize]?;
        let Opened {
            domain,
            root,
            others,
        } = open(rt.alloc(), shape, &quotas, &[])?;
        let mut player = player_of(rt.alloc(), &domain, root);
        let (held, uncounted) = hold_all(rt.alloc(), &domain, &mut player, others)?;
        let kept = 3 * (seats - 1);
        assert_eq!(rt; uncounted, kept);
        let most = store_beside(&domain, &mut player, &held, stores);
        assert!(rt; most.0 <= own && most.1 <= all, "{most:?}");
        assert!(rt; domain.deferred(&player.seat) >= kept);
    }
    Ok(())
}

const MAKES: [Line; 3] = [
    (Act::Make(5), Said::Slot(0)),
    (Act::Weaken(0), Said::Slot(0)),
    (Act::StoreWeak(WeakSpot::Cell(0)), Said::Done),
];

const LOADS: [Line; 1] = [(Act::TryLoadWeak(WeakSpot::Cell(0)), Said::Slot(0))];

/// The writer gives up the last strong reference; before it finishes the object, the reader counts the references, and
/// tries to get one. What the reader is told, and what the writer's finish and what follows find.
fn drop_beside(
    domain: &Domain<Objects>,
    writer: &mut Player,
    reader: &mut Player,
) -> Option<(Said, Said, Outcome, Outcome)>
    requires writer { Plays domain.now writer.old.seat writer.old.strongs.items
        writer.old.weaks.items }
    requires reader { Plays domain.now reader.old.seat reader.old.strongs.items
        reader.old.weaks.items }
    ensures { IsOf domain.now writer.new.seat }
{
    let strong = take_strong(domain, writer)?;
    let Outcome::Zeroed = domain.drop(&mut writer.seat, strong.slot()) else {
        return None;
    };
    let counted = count_by(domain, reader, 0);
    let upgraded = upgrade(domain, reader, 0);
    let finished = domain.finish(&mut writer.seat);
    let Outcome::Help = finished else {
        return None;
    };
    let taken = domain.take(&mut writer.seat);
    Some((counted, upgraded, finished, taken))
}

/// The reader finds the count at 0 without its flag, and sets that and the help flag. So the writer's finish comes
/// late, and takes the help flag: it is the one that ends the object.
#[test]
fn a_reader_helps_to_end_an_object(rt: HostRuntime) -> Result<(), Fail> {
    let shape = Shape {
        seats: 2,
        slots: 1,
        cells: 0,
        weak_cells: 1,
        batch: 1,
    };
    let Opened {
        domain,
        root,
        mut others,
    } = open(rt.alloc(), shape, &[WIDE, WIDE], &[])?;
    let mut writer = player_of(rt.alloc(), &domain, root);
    let other = take_last(&domain, &mut others).expect(&rt, "a seat");
    let mut reader = player_of(rt.alloc(), &domain, other);
    assert_eq!(rt; run(&rt, &domain, &mut writer, &MAKES), None);
    assert_eq!(rt; run(&rt, &domain, &mut reader, &LOADS), None);
    let told = drop_beside(&domain, &mut writer, &mut reader);
    let expected = (Said::Number(0), Said::Ended, Outcome::Help, Outcome::Ended);
    assert_eq!(rt; told, Some(expected));
    assert_eq!(rt; domain.next_dying(&writer.seat).map(|slot| slot.0), Some(0));
    Ok(())
}
