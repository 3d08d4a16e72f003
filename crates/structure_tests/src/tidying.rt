//! How a seat destroys what ended, and how seat 0 shuts the queue once it is alone.
ghost use Rattle.std.specs.Prelude.{◌≡◌, IfSome};
ghost use Rattle.part_calls.specs.control_word.Resting.{IsAtRest};
ghost use Rattle.part_calls.specs.domain_rule.Views.{IsAlone};
ghost use Rattle.part_calls.specs.Parts.{as_part};
ghost use Rattle.structure_tests.specs.Ready.{IsFree, IsReady, StandsAs};

use crate::letters::{LetterKind, Mail};
use crossbeam_utils::Backoff;
use hand_queues::{HandQueue, NodeKind, QueueLaw, collect};
use part_calls::{
    Deleter, Domain, Heap, Left, OutOfMemory, PairKind, Part, PayloadKind, Seat, SlotImage, leave,
    reap, settle,
};
use std::alloc::Global;
use std::sync::Wait;

const ZERO: u64 = 9_223_372_036_854_775_808;

/// The most objects that a seat destroys in one turn. A node that was popped keeps the next one until it is destroyed,
/// so all that were popped since a seat was held up wait for that seat, one after another: it must destroy more in a
/// turn than all seats leave behind meanwhile, or they only become more.
const MOST_REAPS: u32 = 256;

/// Collects, and destroys what is dying, up to a number of objects. A seat that never collects keeps all nodes after
/// one that it popped.
pub(crate) fn tidy(domain: &Domain<Mail>, seat: &mut Seat<Mail>)
    requires ready { IsReady domain.now seat.old }
    ensures stands { StandsAs seat.old seat.new }
    ensures ready { IsReady domain.now seat.new }
{
    let deleter: Deleter<PairKind<NodeKind, LetterKind>, _> = Deleter::keep(|payload: &[u64; 16]| {
        <PairKind<NodeKind, LetterKind> as PayloadKind>::weigh(payload)
    });
    collect(domain, seat);
    for _turn in 0..MOST_REAPS {
        if reap(domain, seat, &deleter).is_none() {
            return;
        }
    }
}

/// Tidies until the seat has nothing retired and nothing dying. It waits for those who announce what it has.
pub(crate) fn clear_out<R: Wait>(rt: &R, domain: &Domain<Mail>, seat: &mut Seat<Mail>)
    requires ready { IsReady domain.now seat.old }
    ensures stands { StandsAs seat.old seat.new }
    ensures ready { IsReady domain.now seat.new }
{
    let backoff = Backoff::new();
    for _turn in rt.forever() {
        tidy(domain, seat);
        if domain.deferred(seat) == 0 && domain.next_dying(seat).is_none() {
            return;
        }
        backoff.snooze();
    }
    unreachable!()
}

/// A seat leaves.
pub(crate) fn leave_one(domain: &Domain<Mail>, root: &mut Seat<Mail>, seat: Seat<Mail>)
    requires ready { IsReady domain.now root.old }
    requires first { root.old.view.core.seat ≡ 0 }
    requires laid { root.old.view.client.0.stand.laid ≡ 2 }
    requires free { IsFree domain.now seat }
    ensures ready { IsReady domain.now root.new }
    ensures first { root.new.view.core.seat ≡ 0 }
    ensures laid { root.new.view.client.0.stand.laid ≡ 2 }
{
    leave(domain, root, seat);
}

/// Shuts the queue, and destroys all that may be destroyed. The weights of it, or `None` where the seat isn't alone.
fn shut_and_settle<H: HandQueue>(
    domain: &Domain<Mail>,
    root: &mut Seat<Mail>,
    queue: &H,
) -> Option<u64>
    requires ready { IsReady domain.now root.old }
    requires queue { H.is_on queue.now
        (as_part ⟦<Mail as Part<QueueLaw, Left>>⟧.part domain.now) }
    requires laid { root.old.view.client.0.stand.laid ≡ 2 }
    ensures alone { IfSome result (λ weight. IsAlone root.new.view) }
    ensures rest { IsAtRest domain.now root.new }
{
    let deleter: Deleter<PairKind<NodeKind, LetterKind>, _> = Deleter::keep(|payload: &[u64; 16]| {
        <PairKind<NodeKind, LetterKind> as PayloadKind>::weigh(payload)
    });
    if !domain.alone(root) {
        return None;
    }
    queue.shut::<Left, Mail>(domain, root);
    Some(settle(domain, root, &deleter))
}

/// The same, and how many slots aren't free then, places not null, and entries deferred.
pub(crate) fn shut_down<H: HandQueue>(
    alloc: Global,
    domain: &Domain<Mail>,
    root: &mut Seat<Mail>,
    queue: &H,
) -> Result<Option<(u64, usize)>, OutOfMemory>
    requires ready { IsReady domain.now root.old }
    requires queue { H.is_on queue.now
        (as_part ⟦<Mail as Part<QueueLaw, Left>>⟧.part domain.now) }
    requires laid { root.old.view.client.0.stand.laid ≡ 2 }
{
    let Some(left) = shut_and_settle(domain, root, queue) else {
        return Ok(None);
    };
    let heap = domain.image(alloc, root)?;
    Ok(Some((left, contents_of(&heap))))
}

/// How many slots aren't free, cells aren't null, and entries are deferred.
pub(crate) fn contents_of(heap: &Heap) -> usize {
    let busy = |slot: &&SlotImage| (slot.strong, slot.weak) != (ZERO, 0);
    let slots = heap.slots.iter().filter(busy).count();
    let cells = heap.cells.iter().filter(|cell| **cell != 0).count();
    slots
        .saturating_add(cells)
        .saturating_add(heap.deferred.len())
}
