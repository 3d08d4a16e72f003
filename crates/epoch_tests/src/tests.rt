//! Two seats play scripts whose answers were worked out by the rules.
ghost use Rattle.std.specs.Prelude.{IfOk};
ghost use Rattle.epoch_refs.specs.Walks.{IsFree};
ghost use Rattle.epoch_players.specs.Plays.{Plays};

use crate::rows::{ROWS, Row};
use crate::rows_quotas::ROWS_QUOTAS;
use acquire_retire::ShapeField;
use deleter::{Heap, ZERO};
use epoch_players::Who::{First, Second};
use epoch_players::{
    Act, Line, Objects, Opened, Player, Said, Spot, WIDE, clear_all, flush_all, give_back,
    hand_back, is_empty, open, play_on, player_of, run, take_last,
};
use epoch_refs::{EpochShape, OpenError, Quota, e_close, e_image, e_leave, open_epoch};
use std::alloc::Global;
use std::process::Abort;
use std::test::Fail;

const SMALL: EpochShape = EpochShape {
    seats: 3,
    slots: 4,
    cells: 2,
};

const CELL: Spot = Spot::Cell(0);

/// Seat 1 has seen an object when seat 0 takes it out of the cell that had the only reference to it. The first flush
/// makes the epoch 1, since the region began at 0; the second one can't make it 2, and the entry is dated 0.
const SEEN: [Line; 12] = [
    (First, Act::Make(5), Said::Slot(0)),
    (First, Act::Store(CELL), Said::Done),
    (Second, Act::Enter, Said::Done),
    (Second, Act::Look(CELL), Said::Slot(0)),
    (First, Act::Clear(CELL), Said::Done),
    (First, Act::Waiting, Said::Number(1)),
    (First, Act::Flush, Said::Work(1, 0, 0)),
    (First, Act::Flush, Said::Work(1, 0, 0)),
    (Second, Act::ReadSeen(0), Said::Number(5)),
    (Second, Act::Exit, Said::Done),
    (First, Act::Flush, Said::Work(2, 1, 5)),
    (First, Act::Waiting, Said::Number(0)),
];

#[test]
fn a_region_keeps_what_it_has_seen(rt: HostRuntime) -> Result<(), Fail> {
    let shape = EpochShape {
        seats: 2,
        slots: 1,
        cells: 1,
    };
    let Opened {
        domain,
        root,
        mut others,
    } = open(rt.alloc(), shape, &[WIDE, WIDE])?;
    let other = take_last(&domain, &mut others).expect(&rt, "seat 1");
    let mut first = player_of(rt.alloc(), &domain, root);
    let mut second = player_of(rt.alloc(), &domain, other);
    assert_eq!(rt; run(&domain, &mut first, &mut second, &SEEN), None);
    Ok(())
}

/// Plays a row with the seats 1 and 2, which leave then with what they have yet to give up. Seat 0 gives that up, and
/// nothing is left.
fn play_row<R: Abort>(rt: &R, alloc: Global, row: Row) -> Result<(), Fail> {
    let shape = EpochShape {
        slots: row.slots,
        ..SMALL
    };
    let Opened {
        domain,
        mut root,
        mut others,
    } = open(alloc, shape, &[WIDE, row.quota, WIDE])?;
    let seat = take_last(&domain, &mut others).expect(rt, "seat 2");
    let mut second = player_of(alloc, &domain, seat);
    let seat = take_last(&domain, &mut others).expect(rt, "seat 1");
    let mut first = player_of(alloc, &domain, seat);
    let differs = run(&domain, &mut first, &mut second, row.script);
    assert_eq!(rt; differs, None, "{}", row.name);
    let seat = give_back(&domain, first);
    e_leave(&domain, &mut root, seat);
    let seat = give_back(&domain, second);
    e_leave(&domain, &mut root, seat);
    let mut player = player_of(alloc, &domain, root);
    clear_all(&domain, &mut player);
    flush_all(&domain, &mut player);
    let mut root = hand_back(&domain, player);
    if !domain.alone(&root) {
        panic!(rt; "all others have left");
    }
    let heap = e_image(alloc, &domain, &mut root)?;
    assert!(rt; is_empty(&heap), "{}", row.name);
    e_close(domain, root);
    Ok(())
}

#[test]
fn calls_answer_as_worked_out(rt: HostRuntime) -> Result<(), Fail> {
    for row in ROWS {
        play_row(&rt, rt.alloc(), row)?;
    }
    Ok(())
}

#[test]
fn refusals_answer_as_worked_out(rt: HostRuntime) -> Result<(), Fail> {
    for row in ROWS_QUOTAS {
        play_row(&rt, rt.alloc(), row)?;
    }
    Ok(())
}

/// Slot 0 has three references of seat 1; slot 1 one in cell 1 and one of seat 2; slot 2 one that is pending; slot 3
/// one in field 1 of slot 1.
const LEFT: [Line; 15] = [
    (First, Act::Make(5), Said::Slot(0)),
    (First, Act::Copy(0), Said::Slot(0)),
    (First, Act::Copy(0), Said::Slot(0)),
    (First, Act::Make(7), Said::Slot(1)),
    (First, Act::Store(Spot::Cell(1)), Said::Done),
    (First, Act::Make(2), Said::Slot(2)),
    (First, Act::Store(CELL), Said::Done),
    (First, Act::Clear(CELL), Said::Done),
    (Second, Act::Enter, Said::Done),
    (Second, Act::Look(Spot::Cell(1)), Said::Slot(1)),
    (Second, Act::Keep(0), Said::Slot(1)),
    (Second, Act::Make(8), Said::Slot(3)),
    (Second, Act::Store(Spot::Field(0, 1)), Said::Done),
    (Second, Act::Waiting, Said::Number(0)),
    (First, Act::Waiting, Said::Number(1)),
];

/// The strong word, the weak word and the fields of each slot then, and once what was pending has been paid.
const WORDS: [[(u64, u64, [u64; 2]); 5]; 2] = [
    [
        (3, 1, [0, 0]),
        (2, 1, [0, 4]),
        (1, 1, [0, 0]),
        (1, 1, [0, 0]),
        (ZERO, 0, [0, 0]),
    ],
    [
        (3, 1, [0, 0]),
        (2, 1, [0, 4]),
        (ZERO, 0, [0, 0]),
        (1, 1, [0, 0]),
        (ZERO, 0, [0, 0]),
    ],
];

/// The first slot whose words are others than these.
fn first_other(heap: &Heap, words: &[(u64, u64, [u64; 2])]) -> Option<usize> {
    for (index, (slot, expected)) in heap.slots.iter().zip(words).enumerate() {
        if (slot.strong, slot.weak, slot.fields) != *expected {
            return Some(index);
        }
    }
    None
}

/// Seats leave with references and with an entry that is pending; seat 0 pays it.
#[test]
fn an_image_has_the_words_worked_out(rt: HostRuntime) -> Result<(), Fail> {
    let shape = EpochShape { slots: 5, ..SMALL };
    let Opened {
        domain,
        mut root,
        mut others,
    } = open(rt.alloc(), shape, &[WIDE, WIDE, WIDE])?;
    let seat = take_last(&domain, &mut others).expect(&rt, "seat 2");
    let mut second = player_of(rt.alloc(), &domain, seat);
    let seat = take_last(&domain, &mut others).expect(&rt, "seat 1");
    let mut first = player_of(rt.alloc(), &domain, seat);
    assert_eq!(rt; run(&domain, &mut first, &mut second, &LEFT), None);
    e_leave(&domain, &mut root, hand_back(&domain, first));
    e_leave(&domain, &mut root, hand_back(&domain, second));
    if !domain.alone(&root) {
        panic!(rt; "all others have left");
    }
    let heap = e_image(rt.alloc(), &domain, &mut root)?;
    assert_eq!(rt; first_other(&heap, &WORDS[0]), None);
    assert_eq!(rt;
        (heap.slots.len(), heap.cells.len(), heap.deferred.len()),
        (5, 2, 1)
    );
    assert_eq!(rt; (heap.cells[0], heap.cells[1], heap.deferred[0].1.0), (0, 2, 2));
    let mut player = player_of(rt.alloc(), &domain, root);
    assert_eq!(rt;
        play_on(&domain, &mut player, Act::Waiting),
        Said::Number(1)
    );
    assert_eq!(rt;
        play_on(&domain, &mut player, Act::Flush),
        Said::Work(1, 0, 0)
    );
    assert_eq!(rt;
        play_on(&domain, &mut player, Act::Flush),
        Said::Work(2, 1, 2)
    );
    let mut root = hand_back(&domain, player);
    if !domain.alone(&root) {
        panic!(rt; "all others have left");
    }
    let heap = e_image(rt.alloc(), &domain, &mut root)?;
    assert_eq!(rt; first_other(&heap, &WORDS[1]), None);
    assert_eq!(rt; heap.deferred.len(), 0);
    Ok(())
}

/// More than a seat may have.
const TOO_WIDE: Quota = Quota {
    makes: (1 << 40) + 1,
    adds: 0,
};

/// Shapes and quotas of each seat that are refused, and the first field that is out of its range.
const BAD: [(EpochShape, &[Quota], ShapeField); 8] = [
    (EpochShape { seats: 0, ..SMALL }, &[], ShapeField::Seats),
    (
        EpochShape { seats: 33, ..SMALL },
        &[WIDE; 33],
        ShapeField::Seats,
    ),
    (
        EpochShape { slots: 0, ..SMALL },
        &[WIDE; 3],
        ShapeField::Slots,
    ),
    (
        EpochShape {
            slots: 4_194_305,
            ..SMALL
        },
        &[WIDE; 3],
        ShapeField::Slots,
    ),
    (
        EpochShape {
            cells: 4_194_305,
            ..SMALL
        },
        &[WIDE; 3],
        ShapeField::Cells,
    ),
    (SMALL, &[WIDE; 2], ShapeField::Quotas),
    (SMALL, &[WIDE, WIDE, TOO_WIDE], ShapeField::Quotas),
    (
        EpochShape {
            seats: 0,
            slots: 0,
            cells: 0,
        },
        &[WIDE],
        ShapeField::Seats,
    ),
];

#[test]
fn a_bad_shape_is_named(rt: HostRuntime) {
    for (shape, quotas, field) in &BAD {
        match open_epoch(rt.alloc(), *shape, quotas, Objects::new()) {
            Ok(_) => panic!(rt; "it was opened"),
            Err(error) => assert_eq!(rt; error, OpenError::BadShape(*field)),
        }
    }
}

/// Shapes whose fields are the largest ones that there may be, but for slots, which would take too much memory.
const WIDEST: [(EpochShape, &[Quota]); 2] = [
    (EpochShape { seats: 32, ..SMALL }, &[WIDE; 32]),
    (
        EpochShape {
            cells: 4_194_304,
            ..SMALL
        },
        &[WIDE; 3],
    ),
];

#[test]
fn the_widest_shapes_are_opened(rt: HostRuntime) -> Result<(), Fail> {
    for (shape, quotas) in WIDEST {
        let Opened {
            domain: _domain,
            root: _root,
            others,
        } = open(rt.alloc(), shape, quotas)?;
        assert_eq!(rt; others.len() + 1, quotas.len(), "{shape:?}");
    }
    Ok(())
}
