//! Turns that push and pop. A thread's loop ends at the first push that is refused.
ghost use Rattle.std.specs.Prelude.{◌≡◌, ◌<◌, true, IfOk, IfSome};
ghost use Rattle.turn_loops.specs.plain_state.Lists.{times};
ghost use Rattle.linked_queue.specs.Queues.{CanLay, IsQueueOf};
ghost use Rattle.queue_turns.specs.Queueing.{HasPushed, IsFreeToQueue, IsReadyToQueue, OwnsAsMuch};

use crate::opening::{HEAD, TAIL};
use linked_queue::{LinkedQueue, MakeError, MakeNode, NodeKind, QueueLaw, Strong};
use std::sync::Wait;
use turn_loops::{Deleter, Domain, Seat, collect, copy_strong, drop_strong, make, reap};

/// How many turns a thread makes.
pub const TURNS: u64 = 250_000;

/// Lays the queue, and pushes references to one item, one for each thread.
pub fn begin<R: Wait>(
    rt: &R,
    domain: &Domain<QueueLaw>,
    root: &mut Seat<QueueLaw>,
    threads: u32,
) -> Result<LinkedQueue, MakeError>
    requires free { IsFreeToQueue domain.now root.old }
    requires queue { IsQueueOf 0 1 domain.now }
    requires unlaid { CanLay root.old.view.client }
    ensures { IfOk result (λ queue. IsQueueOf queue.head queue.tail domain.now) }
{
    let queue = LinkedQueue::lay(domain, root, HEAD, TAIL)?;
    let item = make_item(domain, root)?;
    for _thread in 0..threads {
        push_copy(rt, domain, root, &queue, &item);
    }
    Ok(queue)
}

/// Makes an object that the queue may carry.
fn make_item(domain: &Domain<QueueLaw>, seat: &mut Seat<QueueLaw>) -> Result<Strong, MakeError>
    requires { IsReadyToQueue domain.now seat.old }
    ensures item { IfOk result (λ item. 0 < times item.slot seat.new.view.core.owned) }
    ensures ready { IsReadyToQueue domain.now seat.new }
{
    make(domain, seat, &[0; 16], MakeNode)
}

/// What the thread of one seat does: it takes one of the references that the queue holds, and makes its turns with the
/// item. The seat, where all of them were made: it has pushed an item in each.
pub fn make_turns<R: Wait>(
    rt: &R,
    domain: &Domain<QueueLaw>,
    mut seat: Seat<QueueLaw>,
    queue: LinkedQueue,
) -> Option<Seat<QueueLaw>>
    requires free { IsFreeToQueue domain.now seat }
    requires queue { IsQueueOf queue.head queue.tail domain.now }
    ensures { IfSome result (λ made. HasPushed 250000 seat.view.client made.view.client) }
{
    queue.attach(rt, domain, &mut seat);
    let Ok(Some(item)) = queue.pop(rt, domain, &mut seat) else {
        return None;
    };
    let all = queue_all(rt, domain, &mut seat, &queue, &item);
    drop_strong(domain, &mut seat, item);
    if all { Some(seat) } else { None }
}

/// Makes the turns of a thread. Whether all of them were made. The seat owns what it owned.
fn queue_all<R: Wait>(
    rt: &R,
    domain: &Domain<QueueLaw>,
    seat: &mut Seat<QueueLaw>,
    queue: &LinkedQueue,
    item: &Strong,
) -> bool
    requires ready { IsReadyToQueue domain.now seat.old }
    requires queue { IsQueueOf queue.now.head queue.now.tail domain.now }
    requires item { 0 < times item.now.slot seat.old.view.core.owned }
    ensures turns { result ≡ true
        → HasPushed 250000 seat.old.view.client seat.new.view.client }
    ensures owned { OwnsAsMuch seat.old seat.new }
    ensures ready { IsReadyToQueue domain.now seat.new }
{
    for _turn in 0..TURNS {
        if !push_copy(rt, domain, seat, queue, item) {
            return false;
        }
        pop_first(rt, domain, seat, queue);
        collect_now(domain, seat);
        reap_ended(domain, seat);
    }
    true
}

/// Copies the reference to the item, and pushes the copy. Whether it was pushed. The seat owns what it owned.
fn push_copy<R: Wait>(
    rt: &R,
    domain: &Domain<QueueLaw>,
    seat: &mut Seat<QueueLaw>,
    queue: &LinkedQueue,
    item: &Strong,
) -> bool
    requires ready { IsReadyToQueue domain.now seat.old }
    requires queue { IsQueueOf queue.now.head queue.now.tail domain.now }
    requires item { 0 < times item.now.slot seat.old.view.core.owned }
    ensures pushed { result ≡ true → HasPushed 1 seat.old.view.client seat.new.view.client }
    ensures owned { OwnsAsMuch seat.old seat.new }
    ensures ready { IsReadyToQueue domain.now seat.new }
{
    let Ok(copy) = copy_strong(domain, seat, item) else {
        return false;
    };
    if let Err(refused) = queue.push(rt, domain, seat, copy) {
        drop_strong(domain, seat, refused.back);
        return false;
    }
    true
}

/// Pops what is first, and drops it. The seat owns what it owned.
fn pop_first<R: Wait>(
    rt: &R,
    domain: &Domain<QueueLaw>,
    seat: &mut Seat<QueueLaw>,
    queue: &LinkedQueue,
)
    requires ready { IsReadyToQueue domain.now seat.old }
    requires queue { IsQueueOf queue.now.head queue.now.tail domain.now }
    ensures pushed { seat.new.view.client.pushed ≡ seat.old.view.client.pushed }
    ensures owned { OwnsAsMuch seat.old seat.new }
    ensures ready { IsReadyToQueue domain.now seat.new }
{
    let Ok(found) = queue.pop(rt, domain, seat) else {
        return;
    };
    if let Some(first) = found {
        drop_strong(domain, seat, first);
    }
}

/// Collects. The seat owns what it owned.
fn collect_now(domain: &Domain<QueueLaw>, seat: &mut Seat<QueueLaw>)
    requires { IsReadyToQueue domain.now seat.old }
    ensures client { seat.new.view.client ≡ seat.old.view.client }
    ensures owned { seat.new.view.core.owned ≡ seat.old.view.core.owned }
    ensures ready { IsReadyToQueue domain.now seat.new }
{
    collect(domain, seat);
}

/// Destroys what the seat has ended, as far as nobody announces it. The seat owns what it owned.
fn reap_ended(domain: &Domain<QueueLaw>, seat: &mut Seat<QueueLaw>)
    requires { IsReadyToQueue domain.now seat.old }
    ensures client { seat.new.view.client ≡ seat.old.view.client }
    ensures owned { seat.new.view.core.owned ≡ seat.old.view.core.owned }
    ensures ready { IsReadyToQueue domain.now seat.new }
{
    for _reap in 0..u64::MAX {
        if !reap_one(domain, seat) {
            break;
        }
    }
}

/// Destroys one object that the seat has ended. Whether there was one that nobody announces.
fn reap_one(domain: &Domain<QueueLaw>, seat: &mut Seat<QueueLaw>) -> bool
    requires { IsReadyToQueue domain.now seat.old }
    ensures client { seat.new.view.client ≡ seat.old.view.client }
    ensures owned { seat.new.view.core.owned ≡ seat.old.view.core.owned }
    ensures ready { IsReadyToQueue domain.now seat.new }
{
    let deleter: Deleter<NodeKind, _> = Deleter::keep(|_payload: &[u64; 16]| 0);
    reap(domain, seat, &deleter).is_some()
}
