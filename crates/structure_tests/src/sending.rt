//! Letters that a seat writes and sends.
ghost use Rattle.part_calls.specs.Parts.{as_part};
ghost use Rattle.structure_tests.specs.Ready.{IsReady, StandsAs};

use crate::calls::{give_up, push, try_push, write};
use crate::letters::{Letter, Mail};
use crate::tidying::tidy;
use crossbeam_utils::Backoff;
use hand_queues::{HandQueue, PushError, QueueLaw};
use part_calls::{Domain, Left, Part, Seat};
use std::sync::Wait;
use weak_intern::MakeError;

/// Writes a letter and pushes it, however often another seat is quicker. Where it is refused, the letter is given up.
pub(crate) fn send<H: HandQueue, R: Wait>(
    rt: &R,
    domain: &Domain<Mail>,
    seat: &mut Seat<Mail>,
    queue: &H,
    letter: Letter,
) -> Result<(), MakeError>
    requires ready { IsReady domain.now seat.old }
    requires queue { H.is_on queue.now
        (as_part ⟦<Mail as Part<QueueLaw, Left>>⟧.part domain.now) }
    ensures stands { StandsAs seat.old seat.new }
    ensures ready { IsReady domain.now seat.new }
{
    let item = write(domain, seat, letter)?;
    match push(rt, domain, seat, queue, item) {
        Ok(()) => Ok(()),
        Err(refused) => {
            let why = refused.why;
            give_up(domain, seat, refused.back);
            Err(why)
        }
    }
}

/// The same in one try. Whether it was pushed.
pub(crate) fn try_send<H: HandQueue>(
    domain: &Domain<Mail>,
    seat: &mut Seat<Mail>,
    queue: &H,
    letter: Letter,
) -> bool
    requires ready { IsReady domain.now seat.old }
    requires queue { H.is_on queue.now
        (as_part ⟦<Mail as Part<QueueLaw, Left>>⟧.part domain.now) }
    ensures stands { StandsAs seat.old seat.new }
    ensures ready { IsReady domain.now seat.new }
{
    let Ok(item) = write(domain, seat, letter) else {
        return false;
    };
    match try_push(domain, seat, queue, item) {
        Ok(()) => true,
        Err(PushError::Again { back, .. }) => {
            give_up(domain, seat, back);
            false
        }
        Err(PushError::Refused(refused)) => {
            give_up(domain, seat, refused.back);
            false
        }
    }
}

/// Sends the letters of a sender from 0 on, so many of them, and waits as long as the domain is full. How many were
/// sent: fewer only where the seat's quota is used up.
pub(crate) fn send_all<H: HandQueue, R: Wait>(
    rt: &R,
    domain: &Domain<Mail>,
    seat: &mut Seat<Mail>,
    queue: &H,
    sender: u64,
    letters: u64,
) -> u64
    requires ready { IsReady domain.now seat.old }
    requires queue { H.is_on queue.now
        (as_part ⟦<Mail as Part<QueueLaw, Left>>⟧.part domain.now) }
    ensures stands { StandsAs seat.old seat.new }
    ensures ready { IsReady domain.now seat.new }
{
    for number in 0..letters {
        if !send_at_last(rt, domain, seat, queue, Letter { sender, number }) {
            return number;
        }
        tidy(domain, seat);
    }
    letters
}

/// Sends a letter, and tries again as long as the domain is full. Whether it was sent.
fn send_at_last<H: HandQueue, R: Wait>(
    rt: &R,
    domain: &Domain<Mail>,
    seat: &mut Seat<Mail>,
    queue: &H,
    letter: Letter,
) -> bool
    requires ready { IsReady domain.now seat.old }
    requires queue { H.is_on queue.now
        (as_part ⟦<Mail as Part<QueueLaw, Left>>⟧.part domain.now) }
    ensures stands { StandsAs seat.old seat.new }
    ensures ready { IsReady domain.now seat.new }
{
    let backoff = Backoff::new();
    for _try in rt.forever() {
        match send(rt, domain, seat, queue, letter) {
            Ok(()) => return true,
            Err(MakeError::Full) => tidy(domain, seat),
            Err(_) => return false,
        }
        backoff.snooze();
    }
    unreachable!()
}
