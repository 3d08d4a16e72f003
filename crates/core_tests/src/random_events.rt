//! A walk of random events of a core, after which its laws are tested.
ghost use Rattle.std.specs.Prelude.{◌≡◌};

use crate::contents::Contents;
use crate::dice::Dice;
use crate::laws::{announced, is_good};
use cdrc_steps::{Act, Core, Event, EventPlace, Outcome, OwnView, Quota, Shape, SlotId, StepError};
use std::process::Abort;
use std::test::Fail;

const SHAPE: Shape = Shape {
    seats: 3,
    slots: 70,
    cells: 1,
    weak_cells: 1,
    batch: 2,
};

const WIDE: Quota = Quota {
    makes: 1 << 40,
    adds: 1 << 40,
};

/// The word that the seat's scan is to read next: that of a note of one of three seats.
fn next_word(core: &Core, seat: u32) -> u64
    requires { core.now.shape.seats ≡ 3 }
{
    if seat >= 3 {
        return 0;
    }
    let at = core.seat(seat).seen().len();
    if at >= 12 {
        return 0;
    }
    announced(core.seat((at / 4) as u32).notes()[at % 4])
}

/// An act of a seat; once it is to leave, mostly one that brings it nearer to that.
fn drawn(dice: &mut Dice, view: &OwnView, leaves: bool) -> Act {
    if leaves {
        dice.last_act(view)
    } else {
        dice.act(view)
    }
}

/// Notes what an event found or stored. Whether a scan read the word that it was to read.
fn note(dice: &mut Dice, act: Act, outcome: Outcome, word: u64) -> bool {
    match (act, outcome) {
        (Act::Look(place), Outcome::Found(Some(slot))) => dice.found = (place, slot),
        (Act::Swap(place, Some(slot)), _) => dice.found = (place, slot),
        (Act::Scan, Outcome::Word(found) | Outcome::Split(found, _, _)) => return found == word,
        _ => {}
    }
    true
}

/// Makes so many enabled events, and tests the laws now and then.
fn walk(
    rt: &impl Abort,
    core: &mut Core,
    contents: &mut Contents,
    dice: &mut Dice,
    wanted: u32,
    leaves: bool,
) -> Result<u32, Fail>
    requires { core.old.shape.seats ≡ 3 }
    ensures { core.new.shape ≡ core.old.shape }
{
    let mut made: u32 = 0;
    for _try in 0..4_000_000u32 {
        if made >= wanted {
            break;
        }
        let seat = dice.below(3);
        let act = drawn(dice, core.seat(seat), leaves);
        let word = next_word(core, seat);
        let event = Event { seat, act };
        let outcome = match core.step(&event) {
            Ok(outcome) => outcome,
            Err(StepError::NotEnabled) => continue,
            Err(error) => return Err(Fail::from(error)),
        };
        made += 1;
        let reads = note(dice, act, outcome, word);
        assert!(rt; reads, "{event:?}");
        let agrees = contents.agree(act, outcome)?;
        assert!(rt; agrees, "{event:?} answered {outcome:?}");
        let holds = made % 100 != 0 || is_good(core, contents);
        assert!(rt; holds, "after {made} events, the last of them {event:?}");
    }
    Ok(made)
}

#[test]
fn twenty_thousand_events_keep_the_laws(rt: HostRuntime) -> Result<(), Fail> {
    let mut core = Core::start_granted(rt.alloc(), SHAPE, &[WIDE; 3], &[3, 0, 5])?;
    let mut contents = Contents {
        holds: Vec::new(rt.alloc()),
        tickets: 0,
    };
    let mut dice = Dice {
        state: 3,
        found: (EventPlace::Cell(0), SlotId(0)),
    };
    let made = walk(&rt, &mut core, &mut contents, &mut dice, 20_000, false)?;
    assert_eq!(rt; made, 20_000);
    for outcome in [
        Outcome::Claimed,
        Outcome::Up,
        Outcome::Dead,
        Outcome::Ended,
        Outcome::Last,
        Outcome::Valid,
        Outcome::Alive,
        Outcome::Zeroed,
    ] {
        let found = (0..core.shape().seats).any(|seat| core
            .seat(seat)
            .trail()
            .iter()
            .any(|made| made.outcome == outcome));
        assert!(rt; found, "{outcome:?}");
    }
    walk(&rt, &mut core, &mut contents, &mut dice, 1_000, true)?;
    assert!(rt; core.seat(1).has_left() && core.seat(2).has_left());
    Ok(())
}
