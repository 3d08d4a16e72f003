//! A seat whose adds are used up: each call that needs one is refused, and changes nothing; what the seat has can be
//! given up all the same, and then the seat leaves, and nothing is left.
use crate::acts::{Act, Said, Spot, WeakSpot};
use crate::opening::{Opened, WIDE, is_empty, open, player_of, take_last};
use crate::player::Player;
use crate::playing::{Line, run, run_deep};
use crate::tests::CLEAR;
use control_word::{Quota, Shape};
use slot_store::leave;
use std::test::Fail;

const CELL: Spot = Spot::Cell(0);

const WEAK: WeakSpot = WeakSpot::Cell(0);

const POOR: Quota = Quota { makes: 4, adds: 8 };

/// Uses up eight adds. Slot 0 is in cell 0 and weak cell 0 then, and the player has two strong references to it and a
/// weak one; slot 1 is in cell 1; and slot 2 has ended, and the player has a weak reference to it.
const SPENDS: [Line; 13] = [
    (Act::Make(4), Said::Slot(0)),
    (Act::Weaken(0), Said::Slot(0)),
    (Act::CopyWeak(0), Said::Slot(0)),
    (Act::StoreWeak(WEAK), Said::Done),
    (Act::Copy(0), Said::Slot(0)),
    (Act::Store(CELL), Said::Done),
    (Act::Make(9), Said::Slot(1)),
    (Act::Store(Spot::Cell(1)), Said::Done),
    (Act::Make(2), Said::Slot(2)),
    (Act::Weaken(1), Said::Slot(2)),
    (Act::Drop, Said::Done),
    (Act::Copy(0), Said::Slot(0)),
    (Act::Adds, Said::Number(8)),
];

/// Each call that needs an add, also where it would find an object ended or a place null.
const REFUSED: [Line; 14] = [
    (Act::Make(1), Said::AddsSpent),
    (Act::Copy(0), Said::Spent),
    (Act::Weaken(0), Said::Spent),
    (Act::CopyWeak(0), Said::Spent),
    (Act::Upgrade(0), Said::Spent),
    (Act::Upgrade(1), Said::Spent),
    (Act::TryLoad(CELL), Said::Spent),
    (Act::Load(CELL), Said::Spent),
    (Act::TryLoad(Spot::Field(0, 0)), Said::Spent),
    (Act::TryLoadWeak(WEAK), Said::Spent),
    (Act::LoadWeak(WEAK), Said::Spent),
    (Act::Ticket, Said::Spent),
    (Act::Look(CELL), Said::Slot(0)),
    (Act::Watch(WEAK), Said::Slot(0)),
];

/// Under three snapshots there is no word left for another one.
const REFUSED_DEEP: [Line; 5] = [
    (Act::Look(CELL), Said::Spent),
    (Act::LookOn(CELL), Said::Spent),
    (Act::Take(CELL), Said::Spent),
    (Act::Keep, Said::Spent),
    (Act::Watch(WEAK), Said::Spent),
];

/// Nothing has changed: slot 0 has three strong references, and three weak ones, its own among them.
const UNCHANGED: [Line; 6] = [
    (Act::Adds, Said::Number(8)),
    (Act::Count(0), Said::Number(3)),
    (Act::CountWeak(0), Said::Number(3)),
    (Act::CountBy(1), Said::Number(0)),
    (Act::Deferred, Said::Number(0)),
    (Act::Dying, Said::Slot(2)),
];

/// What needs no add goes on: the player gives up all that it has, of which 13 are left to weigh.
const GIVES_UP: [Line; 9] = [
    (Act::Reap, Said::Number(2)),
    (Act::Replace(Spot::Cell(1), Some(1)), Said::Done),
    (Act::Deferred, Said::Number(1)),
    (Act::Store(CELL), Said::Done),
    (Act::Deferred, Said::Number(2)),
    (Act::DropWeak, Said::Done),
    (Act::DropWeak, Said::Done),
    (Act::Collect, Said::Done),
    (Act::Deferred, Said::Number(0)),
];

const SETTLES: [Line; 2] = [
    (Act::Settle, Said::Number(13)),
    (Act::Audit(0), Said::Found((0, 0, 0, 0), (0, 0))),
];

/// The other seat, which has adds, goes on too.
const OTHER: [Line; 4] = [
    (Act::Load(CELL), Said::Slot(0)),
    (Act::Make(8), Said::Slot(3)),
    (Act::Drop, Said::Done),
    (Act::Drop, Said::Done),
];

#[test]
fn a_spent_seat_is_refused_and_loses_nothing(rt: HostRuntime) -> Result<(), Fail> {
    let shape = Shape {
        seats: 3,
        slots: 4,
        cells: 2,
        weak_cells: 2,
        batch: 1,
    };
    let Opened {
        domain,
        mut root,
        mut others,
    } = open(rt.alloc(), shape, &[WIDE, WIDE, POOR], &[])?;
    let seat = take_last(&domain, &mut others).expect(&rt, "seat 2");
    let mut poor = player_of(rt.alloc(), &domain, seat);
    let seat = take_last(&domain, &mut others).expect(&rt, "seat 1");
    let mut rich = player_of(rt.alloc(), &domain, seat);
    assert_eq!(rt; run(&rt, &domain, &mut poor, &SPENDS), None);
    assert_eq!(rt; run(&rt, &domain, &mut poor, &REFUSED), None);
    let deep = run_deep(&rt, &domain, &mut poor, CELL, 3, &REFUSED_DEEP);
    assert_eq!(rt; deep, None);
    assert_eq!(rt; run(&rt, &domain, &mut poor, &UNCHANGED), None);
    assert_eq!(rt; run(&rt, &domain, &mut rich, &OTHER), None);
    assert_eq!(rt; run(&rt, &domain, &mut poor, &GIVES_UP), None);
    let Player { seat, .. } = poor;
    leave(&domain, &mut root, seat);
    let Player { seat, .. } = rich;
    leave(&domain, &mut root, seat);
    let mut player = player_of(rt.alloc(), &domain, root);
    assert_eq!(rt; run(&rt, &domain, &mut player, &CLEAR), None);
    if !domain.alone(&player.seat) {
        panic!(rt; "all others have left");
    }
    let heap = domain.image(rt.alloc(), &mut player.seat)?;
    assert!(rt; is_empty(&heap));
    Ok(())
}
