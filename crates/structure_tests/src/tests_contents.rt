//! A pop that hands out what a field of the item held.
ghost use Rattle.std.specs.Prelude.{◌<◌};
ghost use Rattle.part_calls.specs.Parts.{as_part};
ghost use Rattle.structure_tests.specs.Ready.{IsReady};

use crate::calls::{look, try_pop_with, try_push, write};
use crate::enclosing::enclose;
use crate::laying::lay;
use crate::letters::{Letter, Mail};
use crate::opening::{BOTH, Opened, WIDE, open_mail};
use hand_queues::{HandQueue, QueueLaw};
use part_calls::{Domain, Left, Part, Seat};
use std::test::Fail;

const OUTER: Letter = Letter {
    sender: 1,
    number: 20,
};

const INNER: Letter = Letter {
    sender: 2,
    number: 30,
};

/// A letter, and the one that was enclosed in a field of it.
type Both = (Letter, Option<Letter>);

/// Pushes a letter in whose field `filled` another one is enclosed, each in one try.
fn push_filled<H: HandQueue>(
    domain: &Domain<Mail>,
    seat: &mut Seat<Mail>,
    queue: &H,
    filled: u32,
) -> bool
    requires ready { IsReady domain.now seat.old }
    requires queue { H.is_on queue.now
        (as_part ⟦<Mail as Part<QueueLaw, Left>>⟧.part domain.now) }
    requires filled { filled < 2 }
    ensures ready { IsReady domain.now seat.new }
{
    let Ok(content) = write(domain, seat, INNER) else {
        return false;
    };
    let Ok(item) = enclose(domain, seat, OUTER, filled, content) else {
        return false;
    };
    try_push(domain, seat, queue, item).is_ok()
}

/// Pops a letter with what its field `read` held.
fn pop_filled<H: HandQueue>(
    domain: &Domain<Mail>,
    seat: &mut Seat<Mail>,
    queue: &H,
    read: u32,
) -> Option<Both>
    requires ready { IsReady domain.now seat.old }
    requires queue { H.is_on queue.now
        (as_part ⟦<Mail as Part<QueueLaw, Left>>⟧.part domain.now) }
    requires read { read < 2 }
    ensures ready { IsReady domain.now seat.new }
{
    let Ok(Some((item, content))) = try_pop_with(domain, seat, queue, read) else {
        return None;
    };
    let inner = match content {
        Some(content) => Some(look(domain, seat, content.slot())),
        None => None,
    };
    Some((look(domain, seat, item.slot()), inner))
}

/// A letter with another one in field `filled`, popped with what its field `read` held.
fn hand_over<H: HandQueue>(
    domain: &Domain<Mail>,
    seat: &mut Seat<Mail>,
    queue: &H,
    filled: u32,
    read: u32,
) -> Option<Both>
    requires ready { IsReady domain.now seat.old }
    requires queue { H.is_on queue.now
        (as_part ⟦<Mail as Part<QueueLaw, Left>>⟧.part domain.now) }
    requires filled { filled < 2 }
    requires read { read < 2 }
    ensures ready { IsReady domain.now seat.new }
{
    if push_filled(domain, seat, queue, filled) {
        pop_filled(domain, seat, queue, read)
    } else {
        None
    }
}

/// The field of a letter that another one is enclosed in, the field that a pop reads, and what it hands out.
const CONTENTS: [(u32, u32, Both); 4] = [
    (0, 0, (OUTER, Some(INNER))),
    (0, 1, (OUTER, None)),
    (1, 0, (OUTER, None)),
    (1, 1, (OUTER, Some(INNER))),
];

#[test]
fn the_content_of_a_field_is_handed_out_too(rt: HostRuntime) -> Result<(), Fail> {
    for form in BOTH {
        for (filled, read, both) in CONTENTS {
            let Opened {
                domain,
                mut root,
                others: _others,
            } = open_mail(rt.alloc(), form, 1, 64, &[WIDE])?;
            let queue = lay(&domain, &mut root, form)?;
            assert!(rt; filled < 2 && read < 2);
            let told = hand_over(&domain, &mut root, &queue, filled, read);
            assert_eq!(rt; told, Some(both));
        }
    }
    Ok(())
}
