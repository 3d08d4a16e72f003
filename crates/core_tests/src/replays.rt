//! Lists of events that are played at once, the refusals of a start, and where words stand.
use cdrc_steps::{
    Act, Core, Event, EventPlace, Kind, Lines, Outcome, OwnView, Quota, ReplayError, Shape,
    ShapeField, SlotId, StartError, StepError, event_line, push_event, steps, words,
};
use std::alloc::Global;
use std::test::Fail;

const WIDE: Quota = Quota {
    makes: 1 << 40,
    adds: 1 << 40,
};

const fn sizes(seats: u32, slots: u32, cells: u32, weak_cells: u32, batch: u32) -> Shape {
    Shape {
        seats,
        slots,
        cells,
        weak_cells,
        batch,
    }
}

/// The events that these lines spell.
fn events_of(alloc: Global, text: &str) -> Result<Vec<Event>, Fail> {
    let mut events = Vec::new(alloc);
    for line in Lines::new(text.as_bytes()) {
        events.push(event_line(&words(alloc, line.bytes)?)?)?;
    }
    Ok(events)
}

/// Of two retired copies under one announcement one stays and one goes.
const TWO_COPIES: &str = "0 claim 0
0 arm
0 start
0 add 0
0 swap @0 0
0 swap @1 0
0 announce 1 strong 0
0 check 1 @0
0 swap @0 null
0 swap @1 null
0 scan
0 scan
0 scan
0 scan
0 pay
";

const TWO_COPIES_TELL: &str = "claim claimed
arm ok
start ok
add up
swap null
swap null
announce ok
check valid
swap 0
swap 0
scan 0
scan 4
scan 0
scan 0 kept 1 ejected 1
pay left
";

#[test]
fn two_copies_are_replayed(rt: HostRuntime) -> Result<(), Fail> {
    let events = events_of(rt.alloc(), TWO_COPIES)?;
    let shape = sizes(1, 1, 2, 0, 4);
    let (core, outcomes) = Core::replay(rt.alloc(), shape, &[WIDE], &events)?;
    let mut text = Vec::new(rt.alloc());
    for (event, outcome) in events.iter().zip(outcomes.iter()) {
        push_event(&mut text, &event.act, outcome)?;
    }
    assert!(rt; text.as_slice() == TWO_COPIES_TELL.as_bytes());
    assert!(rt; core.shape().slots == 1);
    assert_eq!(rt;
        (core.strong_word(SlotId(0)), core.weak_word(SlotId(0))),
        (1, 1)
    );
    Ok(())
}

/// Where there is no memory a text of steps is refused so, and else its output is this.
#[test]
fn steps_that_want_memory(rt: HostRuntime) -> Result<(), Fail> {
    let text = "shape 1 1 0 0 4\n0 claim 0\n0 arm\n0 start\n0 scan\n0 finish\n";
    let output = "claim claimed\narm ok\nstart ok\nscan 0\nline 6 refused: not enabled\n";
    if let Ok(written) = steps(rt.alloc(), text.as_bytes()) {
        assert!(rt; written.text.as_slice() == output.as_bytes() && written.refused);
    }
    Ok(())
}

// The first field that is out of its range is named, in the order of the fields. Grants are too many where they add up
// to more than 2^40, and no sum of them wraps.
#[test]
fn starts_that_are_refused(rt: HostRuntime) {
    let over = Quota {
        makes: 0,
        adds: (1 << 40) + 1,
    };
    let fit = sizes(1, 1, 0, 0, 4);
    let one = [WIDE];
    for (shape, quotas, grants, field) in [
        (
            sizes(33, 0, 65_537, 0, 0),
            one.as_slice(),
            [0, 0],
            ShapeField::Seats,
        ),
        (sizes(1, 0, 65_537, 0, 0), &one, [0, 0], ShapeField::Slots),
        (
            sizes(1, 1, 65_537, 4_194_305, 0),
            &one,
            [0, 0],
            ShapeField::Cells,
        ),
        (
            sizes(1, 1, 0, 4_194_305, 0),
            &one,
            [0, 0],
            ShapeField::WeakCells,
        ),
        (sizes(1, 1, 0, 0, 1_025), &[], [0, 0], ShapeField::Batch),
        (fit, &[], [0, 0], ShapeField::Quotas),
        (sizes(2, 1, 0, 0, 4), &one, [0, 0], ShapeField::Quotas),
        (fit, &[over], [0, 0], ShapeField::Quotas),
        (fit, &one, [1 << 40, 1], ShapeField::Quotas),
        (fit, &one, [u64::MAX, 1], ShapeField::Quotas),
        (fit, &one, [1, u64::MAX], ShapeField::Quotas),
    ] {
        let Err(error) = Core::replay_granted(rt.alloc(), shape, quotas, &grants, &[]) else {
            panic!(rt; "a core: {field:?}")
        };
        assert_eq!(rt; error, ReplayError::Start(StartError::BadShape(field)));
    }
}

// Tickets grant makes, each to who drew it: one to seat 0, and none to seat 1.
#[test]
fn tickets_grant_makes(rt: HostRuntime) -> Result<(), Fail> {
    let none = Quota { makes: 0, adds: 9 };
    let events = events_of(rt.alloc(), "1 ticket\n0 ticket\n0 claim 0\n1 claim 1\n")?;
    let shape = sizes(2, 2, 0, 0, 4);
    let Err(error) = Core::replay_granted(rt.alloc(), shape, &[none; 2], &[0, 1], &events) else {
        panic!(rt; "the slot was claimed")
    };
    assert_eq!(rt; error, ReplayError::At(3, StepError::NotEnabled));
    Ok(())
}

/// A seat with three objects: one that it holds strongly and weakly and has retired too, one that has ended before a
/// whole scan, and one that has ended after it. S is the seat, and A, B and C are the slots.
const ALL_LISTS: &str = "S claim A
S arm
S start
S claim B
S arm
S start
S claim C
S arm
S start
S ticket
S wadd A
S drop B
S finish
S scan
S scan
S scan
S scan
S scan
S scan
S scan
S scan
S drop C
S finish
S add A
S swap @S A
S swap @S null
";

/// The events of a seat with these three objects.
fn fill_lists(alloc: Global, seat: &str, slots: [&str; 3]) -> Result<Vec<Event>, Fail> {
    let text = ALL_LISTS.replace(alloc, "S", seat)?;
    let text = text.replace(alloc, "A", slots[0])?;
    let text = text.replace(alloc, "B", slots[1])?;
    let text = text.replace(alloc, "C", slots[2])?;
    events_of(alloc, &text)
}

// Each list of a seat that leaves comes behind that of the first seat.
#[test]
fn a_seat_leaves_with_all_lists(rt: HostRuntime) -> Result<(), Fail> {
    let mut events = fill_lists(rt.alloc(), "0", ["0", "1", "2"])?;
    events.append(&mut fill_lists(rt.alloc(), "1", ["3", "4", "5"])?)?;
    events.append(&mut events_of(rt.alloc(), "0 leave 1\n0 destroy 4\n0 free\n")?)?;
    let shape = sizes(2, 6, 2, 0, 4);
    let (core, _) = Core::replay(rt.alloc(), shape, &[WIDE; 2], &events)?;
    assert!(rt; core.shape().seats == 2 && core.shape().slots == 6);
    let root = core.seat(0);
    assert_eq!(rt; root.owned(), [SlotId(0), SlotId(3)].as_slice());
    assert_eq!(rt; root.weaks(), [SlotId(0), SlotId(3)].as_slice());
    assert_eq!(rt;
        root.retired(),
        [(Kind::Strong, SlotId(0)), (Kind::Strong, SlotId(3))].as_slice()
    );
    assert_eq!(rt; root.dying(), [SlotId(1), SlotId(2), SlotId(5)].as_slice());
    assert_eq!(rt; root.ripe(), [SlotId(1)].as_slice());
    assert_eq!(rt; (root.made().len(), root.room()), (6, 24));
    assert_eq!(rt; root.tickets(), [0].as_slice());
    assert_eq!(rt; root.left_seats().len(), 1);
    let kept = &root.left_seats()[0];
    assert_eq!(rt; (kept.seat(), kept.trail().len()), (1, 26));
    assert_eq!(rt; kept.tickets(), [1].as_slice());
    let leaver = core.seat(1);
    assert!(rt; leaver.has_left() && leaver.owned().is_empty() && leaver.tickets().is_empty());
    assert!(rt; core.is_free(SlotId(4)) && !core.is_free(SlotId(5)));
    Ok(())
}

const PLACED: Shape = Shape {
    seats: 2,
    slots: 5,
    cells: 3,
    weak_cells: 4,
    batch: 1,
};

/// Acts of seat 1 with the places of their words. The base word and 8 announcement words come first, then 3 and 4
/// cells: slot 2 begins at 16 + 42, and the slots end at 121. A note that announces nothing has no slot, so its place
/// is word 0.
const PLACES: [(Act, usize); 12] = [
    (Act::Announce(3, Kind::Weak, SlotId(0)), 8),
    (Act::Look(EventPlace::Cell(2)), 11),
    (Act::Look(EventPlace::WeakCell(3)), 15),
    (Act::Add(SlotId(2)), 58),
    (Act::Wadd(SlotId(2)), 59),
    (Act::Look(EventPlace::Field(SlotId(2), 1)), 61),
    (Act::Look(EventPlace::WeakField(SlotId(2))), 62),
    (Act::See(SlotId(2), 15), 78),
    (Act::Scan, 1),
    (Act::Alive(0), 0),
    (Act::Claim(SlotId(2)), 121),
    (Act::Ticket, 122),
];

#[test]
fn places_follow_the_order_of_the_words(rt: HostRuntime) -> Result<(), Fail> {
    let seat = OwnView::first(rt.alloc(), PLACED, 1, WIDE, &[])?;
    for (act, at) in &PLACES {
        assert_eq!(rt; seat.place(&PLACED, act), *at, "{act:?}");
    }
    Ok(())
}
