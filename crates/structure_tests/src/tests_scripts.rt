//! One seat on a queue of either form: a script whose answers were written by hand, the memory of nodes, and what is
//! left after a shut.
ghost use Rattle.std.specs.Prelude.{◌≡◌};
ghost use Rattle.part_calls.specs.Parts.{as_part};
ghost use Rattle.structure_tests.specs.Ready.{IsReady, StandsAs};

use crate::laying::lay;
use crate::letters::{Letter, Mail};
use crate::opening::{BOTH, Opened, WIDE, open_mail};
use crate::sending::{send, send_all, try_send};
use crate::taking::{take, try_take};
use crate::tidying::{clear_out, contents_of, shut_down, tidy};
use hand_queues::{Form, HandQueue, QueueLaw};
use part_calls::{Domain, Left, Part, Seat};
use std::sync::Wait;
use std::test::Fail;

/// A call on a queue, by the number of a letter of sender 3.
#[derive(Clone, Copy, Debug, Drop)]
enum Step {
    Send(u64),
    TrySend(u64),
    Take,
    TryTake,
}

/// What a call answered.
#[derive(Clone, Copy, Debug, PartialEq, Eq, Drop)]
enum Said {
    Sent,
    Got(u64),
    Nothing,
    Refused,
}

/// A script, and what each call answers.
const SCRIPT: [(Step, Said); 32] = [
    (Step::Take, Said::Nothing),
    (Step::Send(10), Said::Sent),
    (Step::Take, Said::Got(10)),
    (Step::TryTake, Said::Nothing),
    (Step::TrySend(11), Said::Sent),
    (Step::Send(12), Said::Sent),
    (Step::TrySend(13), Said::Sent),
    (Step::TryTake, Said::Got(11)),
    (Step::Send(14), Said::Sent),
    (Step::Take, Said::Got(12)),
    (Step::Take, Said::Got(13)),
    (Step::TryTake, Said::Got(14)),
    (Step::TryTake, Said::Nothing),
    (Step::Take, Said::Nothing),
    (Step::TrySend(15), Said::Sent),
    (Step::TryTake, Said::Got(15)),
    (Step::Take, Said::Nothing),
    (Step::Send(17), Said::Sent),
    (Step::Send(16), Said::Sent),
    (Step::Send(17), Said::Sent),
    (Step::TrySend(18), Said::Sent),
    (Step::TrySend(19), Said::Sent),
    (Step::Take, Said::Got(17)),
    (Step::TryTake, Said::Got(16)),
    (Step::Send(20), Said::Sent),
    (Step::TryTake, Said::Got(17)),
    (Step::Take, Said::Got(18)),
    (Step::Take, Said::Got(19)),
    (Step::TrySend(21), Said::Sent),
    (Step::Take, Said::Got(20)),
    (Step::TryTake, Said::Got(21)),
    (Step::TryTake, Said::Nothing),
];

/// What was taken, as an answer. A letter of another sender than 3 is refused.
fn told<E: Drop>(taken: Result<Option<Letter>, E>) -> Said {
    match taken {
        Ok(Some(letter)) if letter.sender == 3 => Said::Got(letter.number),
        Ok(Some(_)) => Said::Refused,
        Ok(None) => Said::Nothing,
        Err(_) => Said::Refused,
    }
}

/// Makes one call, and tells what it answered.
fn make_step<H: HandQueue, R: Wait>(
    rt: &R,
    domain: &Domain<Mail>,
    seat: &mut Seat<Mail>,
    queue: &H,
    step: Step,
) -> Said
    requires ready { IsReady domain.now seat.old }
    requires queue { H.is_on queue.now
        (as_part ⟦<Mail as Part<QueueLaw, Left>>⟧.part domain.now) }
    ensures ready { IsReady domain.now seat.new }
{
    match step {
        Step::Send(number) => match send(rt, domain, seat, queue, Letter { sender: 3, number }) {
            Ok(()) => Said::Sent,
            Err(_) => Said::Refused,
        },
        Step::TrySend(number) => {
            if try_send(domain, seat, queue, Letter { sender: 3, number }) {
                Said::Sent
            } else {
                Said::Refused
            }
        }
        Step::Take => told(take(rt, domain, seat, queue)),
        Step::TryTake => told(try_take(domain, seat, queue)),
    }
}

/// Runs the script, and tells the first call that answered something else than what is written there.
fn first_difference<H: HandQueue, R: Wait>(
    rt: &R,
    domain: &Domain<Mail>,
    seat: &mut Seat<Mail>,
    queue: &H,
) -> Option<(usize, Said)>
    requires ready { IsReady domain.now seat.old }
    requires queue { H.is_on queue.now
        (as_part ⟦<Mail as Part<QueueLaw, Left>>⟧.part domain.now) }
{
    for (index, (step, written)) in SCRIPT.iter().enumerate() {
        let answer = make_step(rt, domain, seat, queue, *step);
        if answer != *written {
            return Some((index, answer));
        }
    }
    None
}

/// Both forms answer the same, since each answers what is written.
#[test]
fn both_forms_answer_as_written(rt: HostRuntime) -> Result<(), Fail> {
    for form in BOTH {
        let Opened {
            domain,
            mut root,
            others: _others,
        } = open_mail(rt.alloc(), form, 1, 64, &[WIDE])?;
        let queue = lay(&domain, &mut root, form)?;
        assert_eq!(rt; first_difference(&rt, &domain, &mut root, &queue), None);
    }
    Ok(())
}

/// How many letters go on the queue and come back, one after another, in the test of memory.
const TURNS: u64 = 100_000;

/// Sends so many letters, each of which it takes at once. How many came back as they were sent.
fn send_and_take<H: HandQueue, R: Wait>(
    rt: &R,
    domain: &Domain<Mail>,
    seat: &mut Seat<Mail>,
    queue: &H,
    turns: u64,
) -> u64
    requires ready { IsReady domain.now seat.old }
    requires queue { H.is_on queue.now
        (as_part ⟦<Mail as Part<QueueLaw, Left>>⟧.part domain.now) }
    ensures stands { StandsAs seat.old seat.new }
    ensures ready { IsReady domain.now seat.new }
{
    let mut back: u64 = 0;
    for number in 0..turns {
        let letter = Letter { sender: 3, number };
        let sent = send(rt, domain, seat, queue, letter);
        if sent == Ok(()) && take(rt, domain, seat, queue) == Ok(Some(letter)) {
            back = back.saturating_add(1);
        }
        tidy(domain, seat);
    }
    clear_out(rt, domain, seat);
    back
}

/// What an empty queue keeps: its two cells, the slot of the dummy, and on a doubly linked queue that of the node
/// before, to which the dummy has a weak reference.
fn kept_by(form: Form) -> usize {
    match form {
        Form::Linked => 3,
        Form::Double => 4,
    }
}

/// Sends five letters, and takes two.
fn leave_three<H: HandQueue, R: Wait>(
    rt: &R,
    domain: &Domain<Mail>,
    root: &mut Seat<Mail>,
    queue: &H,
) -> [Said; 2]
    requires ready { IsReady domain.now root.old }
    requires queue { H.is_on queue.now
        (as_part ⟦<Mail as Part<QueueLaw, Left>>⟧.part domain.now) }
    requires laid { root.old.view.client.0.stand.laid ≡ 2 }
    ensures laid { root.new.view.client.0.stand.laid ≡ 2 }
    ensures ready { IsReady domain.now root.new }
{
    let _sent = send_all(rt, domain, root, queue, 3, 5);
    let first = told(take(rt, domain, root, queue));
    let second = told(take(rt, domain, root, queue));
    clear_out(rt, domain, root);
    [first, second]
}

/// In a domain of 16 slots no push is ever refused, and at the end all other slots are free. Then the queue is shut
/// with three letters waiting: these are destroyed, and nothing is left.
#[test]
fn nodes_give_their_slots_back(rt: HostRuntime) -> Result<(), Fail> {
    for form in BOTH {
        let Opened {
            domain,
            mut root,
            others: _others,
        } = open_mail(rt.alloc(), form, 1, 16, &[WIDE])?;
        let queue = lay(&domain, &mut root, form)?;
        let back = send_and_take(&rt, &domain, &mut root, &queue, TURNS);
        assert_eq!(rt; back, TURNS);
        if !domain.alone(&root) {
            panic!(rt; "there is one seat")
        }
        let heap = domain.image(rt.alloc(), &mut root)?;
        assert_eq!(rt; contents_of(&heap), kept_by(form));
        let taken = leave_three(&rt, &domain, &mut root, &queue);
        assert_eq!(rt; taken, [Said::Got(0), Said::Got(1)]);
        let left = shut_down(rt.alloc(), &domain, &mut root, &queue)?;
        assert_eq!(rt; left, Some((3, 0)));
    }
    Ok(())
}
