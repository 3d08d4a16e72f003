//! Letters that a seat takes off the queue and reads.
ghost use Rattle.part_calls.specs.Parts.{as_part};
ghost use Rattle.structure_tests.specs.Ready.{IsReady, StandsAs};

use crate::calls::{open, pop, try_pop};
use crate::letters::{Letter, Mail};
use crate::tallies::Tally;
use crate::tidying::tidy;
use crossbeam_utils::Backoff;
use hand_queues::{HandQueue, PopError, QueueLaw};
use part_calls::{Domain, Left, Part, Seat, Spent};
use std::sync::Wait;
use std::sync::atomic::{AtomicU64, Ordering};

/// Pops a letter, however often another seat is quicker, and gives the reference up once it has read it. `None` where
/// none was linked.
pub(crate) fn take<H: HandQueue, R: Wait>(
    rt: &R,
    domain: &Domain<Mail>,
    seat: &mut Seat<Mail>,
    queue: &H,
) -> Result<Option<Letter>, Spent>
    requires ready { IsReady domain.now seat.old }
    requires queue { H.is_on queue.now
        (as_part ⟦<Mail as Part<QueueLaw, Left>>⟧.part domain.now) }
    ensures stands { StandsAs seat.old seat.new }
    ensures ready { IsReady domain.now seat.new }
{
    match pop(rt, domain, seat, queue) {
        Ok(Some(item)) => Ok(Some(open(domain, seat, item))),
        Ok(None) => Ok(None),
        Err(Spent) => Err(Spent),
    }
}

/// The same in one try.
pub(crate) fn try_take<H: HandQueue>(
    domain: &Domain<Mail>,
    seat: &mut Seat<Mail>,
    queue: &H,
) -> Result<Option<Letter>, PopError>
    requires ready { IsReady domain.now seat.old }
    requires queue { H.is_on queue.now
        (as_part ⟦<Mail as Part<QueueLaw, Left>>⟧.part domain.now) }
    ensures stands { StandsAs seat.old seat.new }
    ensures ready { IsReady domain.now seat.new }
{
    match try_pop(domain, seat, queue) {
        Ok(Some(item)) => Ok(Some(open(domain, seat, item))),
        Ok(None) => Ok(None),
        Err(error) => Err(error),
    }
}

/// Takes letters and tallies them, until it finds none after so many senders have finished.
pub(crate) fn take_all<H: HandQueue, R: Wait>(
    rt: &R,
    domain: &Domain<Mail>,
    seat: &mut Seat<Mail>,
    queue: &H,
    finished: &AtomicU64,
    senders: u64,
    tally: &mut Tally,
)
    requires ready { IsReady domain.now seat.old }
    requires queue { H.is_on queue.now
        (as_part ⟦<Mail as Part<QueueLaw, Left>>⟧.part domain.now) }
    ensures stands { StandsAs seat.old seat.new }
    ensures ready { IsReady domain.now seat.new }
{
    let backoff = Backoff::new();
    for _turn in rt.forever() {
        // Asked before the look, so that nothing is pushed after a look that ends the loop.
        let last = finished.load(Ordering::SeqCst) >= senders;
        match take(rt, domain, seat, queue) {
            Ok(Some(letter)) => tally.note(letter),
            Ok(None) if last => return,
            Ok(None) => backoff.snooze(),
            Err(Spent) => return,
        }
        tidy(domain, seat);
    }
    unreachable!()
}
