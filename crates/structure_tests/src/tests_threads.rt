//! Senders and takers in threads, on one queue. Each letter is taken once, each taker takes the letters of one sender
//! in that sender's order, and once the queue is shut nothing is left.
ghost use Rattle.std.specs.Prelude.{◌≡◌, ◌≤◌, All, length};
ghost use Rattle.part_calls.specs.Parts.{as_part};
ghost use Rattle.structure_tests.specs.Ready.{IsFree, IsReady};

use crate::jobs::{Done, LETTERS, Told, give_jobs, work_all};
use crate::laying::lay;
use crate::letters::Mail;
use crate::opening::{Opened, WIDE, open_mail};
use crate::tallies::Tally;
use crate::tidying::{leave_one, shut_down};
use hand_queues::{Form, HandQueue, QueueLaw};
use part_calls::{Domain, Left, OutOfMemory, Part, Quota, Seat};
use std::alloc::Global;
use std::sync::Wait;
use std::test::Fail;
use std::thread::Threads;

/// As many as all letters of two senders take, and the nodes that carry them: takers may be slower than senders, and a
/// search that finds no slot is as long as there are slots.
const SLOTS: u32 = 1 << 19;

/// What all threads did: how many letters were sent, and which were taken.
#[derive(Drop)]
struct Sums {
    sent: u64,
    taken: Tally,
}

impl Sums {
    /// Adds what one thread did.
    fn add(&mut self, told: Told) {
        match told {
            Told::Sent(sent) => self.sent = self.sent.saturating_add(sent),
            Told::Taken(tally) => self.taken.add(&tally),
        }
    }
}

/// The seat of the last thread leaves, and what it did is added up.
fn leave_last(domain: &Domain<Mail>, root: &mut Seat<Mail>, done: &mut Vec<Done>, sums: &mut Sums)
    requires ready { IsReady domain.now root.old }
    requires first { root.old.view.core.seat ≡ 0 }
    requires laid { root.old.view.client.0.stand.laid ≡ 2 }
    requires done { All (λ d. IsFree domain.now d.seat) done.old.items }
    ensures ready { IsReady domain.now root.new }
    ensures first { root.new.view.core.seat ≡ 0 }
    ensures laid { root.new.view.client.0.stand.laid ≡ 2 }
    ensures done { All (λ d. IsFree domain.now d.seat) done.new.items }
{
    if let Some(Done { seat, told }) = done.pop() {
        leave_one(domain, root, seat);
        sums.add(told);
    }
}

/// All threads' seats leave, and what they did is added up.
fn leave_all(domain: &Domain<Mail>, root: &mut Seat<Mail>, mut done: Vec<Done>, sums: &mut Sums)
    requires ready { IsReady domain.now root.old }
    requires first { root.old.view.core.seat ≡ 0 }
    requires laid { root.old.view.client.0.stand.laid ≡ 2 }
    requires done { All (λ d. IsFree domain.now d.seat) done.items }
    ensures ready { IsReady domain.now root.new }
    ensures first { root.new.view.core.seat ≡ 0 }
    ensures laid { root.new.view.client.0.stand.laid ≡ 2 }
{
    for _seat in 0..done.len() {
        leave_last(domain, root, &mut done, sums);
    }
}

/// What became of all letters.
#[derive(Clone, Copy, Debug, PartialEq, Eq, Drop)]
struct Passed {
    /// How many were sent.
    sent: u64,
    /// Whether each was taken once.
    once: bool,
    /// Whether each taker took those of each sender in that sender's order.
    ordered: bool,
    /// How many were left to seat 0 to destroy, and what was in the heap in the end.
    left: (u64, usize),
}

/// What became of the letters, once the threads are done: their seats leave, and seat 0 shuts the queue and settles.
/// `None` where a seat hasn't left.
fn sum_up<H: HandQueue>(
    alloc: Global,
    domain: &Domain<Mail>,
    root: &mut Seat<Mail>,
    queue: &H,
    senders: u64,
    done: Vec<Done>,
) -> Result<Option<Passed>, OutOfMemory>
    requires ready { IsReady domain.now root.old }
    requires first { root.old.view.core.seat ≡ 0 }
    requires laid { root.old.view.client.0.stand.laid ≡ 2 }
    requires queue { H.is_on queue.now
        (as_part ⟦<Mail as Part<QueueLaw, Left>>⟧.part domain.now) }
    requires done { All (λ d. IsFree domain.now d.seat) done.items }
{
    let mut sums = Sums {
        sent: 0,
        taken: Tally::new(alloc, senders as usize, LETTERS as usize)?,
    };
    leave_all(domain, root, done, &mut sums);
    let Some(left) = shut_down(alloc, domain, root, queue)? else {
        return Ok(None);
    };
    Ok(Some(Passed {
        sent: sums.sent,
        once: sums.taken.has_each_once(),
        ordered: sums.taken.is_ordered(),
        left,
    }))
}

/// Half of the seats beside seat 0 are senders, and half are takers, each in a thread of its own, on a queue of this
/// form. There are five seats at most. `None` where a seat hasn't left.
fn pass_all<R: Threads + Wait + Sync>(
    rt: &R,
    alloc: Global,
    form: Form,
    quotas: &[Quota],
) -> Result<Option<Passed>, Fail>
    requires { length quotas.now ≤ 5 }
{
    let seats = quotas.len() as u32;
    let senders = u64::from(seats / 2);
    let Opened {
        domain,
        mut root,
        mut others,
    } = open_mail(alloc, form, seats, SLOTS, quotas)?;
    let queue = lay(&domain, &mut root, form)?;
    let jobs = give_jobs(alloc, &domain, &mut others, senders)?;
    let done = work_all(rt, &domain, &queue, senders, jobs)?;
    Ok(sum_up(alloc, &domain, &mut root, &queue, senders, done)?)
}

/// Adds for a few hundred letters.
const FEW: Quota = Quota {
    makes: 1 << 40,
    adds: 1000,
};

/// The forms, and the quotas of the seats. The last seat is a taker's: where it runs out of adds it takes no more, and
/// the other one takes all that it leaves.
const SHARES: [(Form, [Quota; 5]); 4] = [
    (Form::Linked, [WIDE, WIDE, WIDE, WIDE, WIDE]),
    (Form::Double, [WIDE, WIDE, WIDE, WIDE, WIDE]),
    (Form::Linked, [WIDE, WIDE, WIDE, WIDE, FEW]),
    (Form::Double, [WIDE, WIDE, WIDE, WIDE, FEW]),
];

#[test]
fn each_letter_is_taken_once_in_its_senders_order(rt: HostRuntime) -> Result<(), Fail> {
    for (form, quotas) in SHARES {
        let passed = pass_all(&rt, rt.alloc(), form, &quotas)?;
        let expected = Passed {
            sent: 2 * LETTERS,
            once: true,
            ordered: true,
            left: (0, 0),
        };
        assert_eq!(rt; passed, Some(expected));
    }
    Ok(())
}
