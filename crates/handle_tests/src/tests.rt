//! One seat plays scripts whose answers were worked out by the rules.
ghost use Rattle.std.specs.Prelude.{◌≡◌};
ghost use Rattle.handle_tests.specs.Plays.{Plays};

use crate::acts::{Act, Said, Spot, WeakSpot};
use crate::opening::{Opened, WIDE, give_up_all, is_empty, open, player_of};
use crate::player::{FirstWord, Objects, Player};
use crate::playing::{Line, run, run_deep};
use crate::rows::Row;
use crate::rows_audits::ROWS_AUDITS;
use crate::rows_counts::ROWS_COUNTS;
use crate::rows_places::ROWS_PLACES;
use control_word::{Domain, OpenError, Quota, Shape, ShapeField, SlotId, open_granted};
use slot_store::{Deleter, reap};
use std::alloc::Global;
use std::cell::Cell;
use std::process::Abort;
use std::sync::Wait;
use std::test::Fail;

const SMALL: Shape = Shape {
    seats: 1,
    slots: 4,
    cells: 2,
    weak_cells: 2,
    batch: 1,
};

/// Leaves all places null, and settles: the weights of what was left.
pub(crate) const CLEAR: [Line; 5] = [
    (Act::Clear(Spot::Cell(0)), Said::Done),
    (Act::Clear(Spot::Cell(1)), Said::Done),
    (Act::ClearWeak(WeakSpot::Cell(0)), Said::Done),
    (Act::ClearWeak(WeakSpot::Cell(1)), Said::Done),
    (Act::Settle, Said::Whatever),
];

/// The first difference of a script, of what is played under snapshots of cell 0 after it, or of what clears all.
fn first_difference<R: Wait>(
    rt: &R,
    domain: &Domain<Objects>,
    player: &mut Player,
    row: Row,
) -> Option<(usize, Said)>
    requires { Plays domain.now player.old.seat player.old.strongs.items player.old.weaks.items }
    ensures { Plays domain.now player.new.seat player.new.strongs.items player.new.weaks.items }
{
    let first = run(rt, domain, player, row.script);
    let second = run_deep(rt, domain, player, Spot::Cell(0), row.depth, row.deep);
    give_up_all(domain, player);
    let third = run(rt, domain, player, &CLEAR);
    first.or(second).or(third)
}

/// Plays a row in a domain of its own, and looks at what is left.
fn play_row<R: Abort + Wait>(rt: &R, alloc: Global, row: Row) -> Result<(), Fail> {
    let shape = Shape {
        slots: row.slots,
        ..SMALL
    };
    let Opened {
        domain,
        root,
        others: _others,
    } = open(alloc, shape, &[row.quota], row.grants)?;
    let mut player = player_of(alloc, &domain, root);
    let differs = first_difference(rt, &domain, &mut player, row);
    assert_eq!(rt; differs, None, "{}", row.name);
    if !domain.alone(&player.seat) {
        panic!(rt; "there is one seat");
    }
    let heap = domain.image(alloc, &mut player.seat)?;
    assert_eq!(rt; is_empty(&heap), !row.cyclic, "{}", row.name);
    Ok(())
}

#[test]
fn counts_answer_as_worked_out(rt: HostRuntime) -> Result<(), Fail> {
    for row in ROWS_COUNTS {
        play_row(&rt, rt.alloc(), row)?;
    }
    Ok(())
}

#[test]
fn places_answer_as_worked_out(rt: HostRuntime) -> Result<(), Fail> {
    for row in ROWS_PLACES {
        play_row(&rt, rt.alloc(), row)?;
    }
    Ok(())
}

#[test]
fn audits_answer_as_worked_out(rt: HostRuntime) -> Result<(), Fail> {
    for row in ROWS_AUDITS {
        play_row(&rt, rt.alloc(), row)?;
    }
    Ok(())
}

/// The deleter is called once for each object, and the seat remembers which slot it gave back, and where it searched.
#[test]
fn a_deleter_is_called_once_for_each_object(rt: HostRuntime) -> Result<(), Fail> {
    let Opened {
        domain,
        root,
        others: _others,
    } = open(rt.alloc(), SMALL, &[WIDE], &[])?;
    let mut player = player_of(rt.alloc(), &domain, root);
    let calls = Cell::new(0u64);
    let deleter: Deleter<FirstWord, _> = Deleter::keep(|payload: &[u64; 16]| {
        calls.set(calls.get().wrapping_add(1));
        payload[0]
    });
    let script = [(Act::Make(11), Said::Slot(0)), (Act::Drop, Said::Done)];
    assert_eq!(rt; run(&rt, &domain, &mut player, &script), None);
    assert_eq!(rt; reap(&domain, &mut player.seat, &deleter), Some(11));
    assert_eq!(rt; reap(&domain, &mut player.seat, &deleter), None);
    assert_eq!(rt; calls.get(), 1);
    assert_eq!(rt; domain.take_freed(&mut player.seat), Some(SlotId(0)));
    assert_eq!(rt; domain.take_freed(&mut player.seat), None);
    domain.end_search(&mut player.seat, SlotId(3));
    assert_eq!(rt; domain.search_start(&player.seat), SlotId(3));
    Ok(())
}

/// Shapes, quotas of each seat and grants that are refused, and by which field.
const BAD: [(Shape, &[Quota], &[u64], ShapeField); 4] = [
    (
        Shape { seats: 33, ..SMALL },
        &[WIDE; 33],
        &[],
        ShapeField::Seats,
    ),
    (Shape { slots: 0, ..SMALL }, &[WIDE], &[], ShapeField::Slots),
    (SMALL, &[WIDE, WIDE], &[], ShapeField::Quotas),
    (SMALL, &[WIDE], &[1 << 40, 1], ShapeField::Quotas),
];

#[test]
fn a_bad_shape_is_named(rt: HostRuntime) {
    for (shape, quotas, grants, field) in &BAD {
        match open_granted(rt.alloc(), *shape, quotas, grants, Objects::new()) {
            Ok(_) => panic!(rt; "it was opened"),
            Err(error) => assert_eq!(rt; error, OpenError::BadShape(*field)),
        }
    }
}
