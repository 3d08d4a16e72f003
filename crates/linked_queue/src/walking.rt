//! The way of a pop from the head's node on.
//!
//! The seat holds what it walks over: a reference to the node in the head cell, then one to the next node, then one to
//! that one's item. It gives them up in the opposite order, but for the item.
ghost use Rattle.std.specs.Prelude.{◌≡◌, ◌<◌, ◌+◌, IfErr, IfOk, IfSome};
ghost use Rattle.slot_store.specs.core_events.Steps.{HasRoom};
ghost use Rattle.part_calls.specs.atomic_shared.Places.{named};
ghost use Rattle.slot_store.specs.control_word.Resting.{IsAtRest, IsSpent};
ghost use Rattle.linked_queue.specs.declared.queue.PopError.TheVariants as unpopped;
ghost use Rattle.part_calls.specs.Parts.{as_part, seen_by};
ghost use Rattle.linked_queue.specs.Losses.{LosesBehind, LosesNode};
ghost use Rattle.linked_queue.specs.Pops.{IsWhyLost, PopsBehind, PopsWith, TakesItem, adds_of, both_by, named_both, pair_by};
ghost use Rattle.linked_queue.specs.Queues.{IsAttached};
ghost use Rattle.linked_queue.specs.Readings.{LeavesBeside, MayReadOne};
ghost use Rattle.linked_queue.specs.Seeing.{SeesHead, SeesNext};

use crate::queue::PopError;
use crate::seeing::{see_gone, see_item, see_next};
use crate::taking::{Sight, refusal_of, take_with};
use part_calls::{Deed, drop_strong};
use queue_protocol::{HasQueue, QueueLaw};
use slot_store::{Domain, Seat, SlotId, Strong, held_as};

/// A pop by a seat that has seen the head's node. It reads this field of the item, where one is named, with the deed.
pub(crate) fn pop_behind<S, P: HasQueue<S>, D: Deed<P>>(
    domain: &Domain<P>,
    seat: &mut Seat<P>,
    head: u32,
    front: SlotId,
    field: Option<u32>,
    deed: D,
) -> Result<Option<(Strong, Option<Strong>)>, PopError>
    requires rest { IsAtRest domain.now seat.old }
    requires room { HasRoom seat.old.view.core }
    requires head { head ≡ (P.part domain.now.protocol).head }
    requires there { head < domain.now.shape.cells }
    requires attached { IsAttached (P.seen seat.old.view.client) }
    requires front { SeesHead front (seen_by P.seen seat.old) }
    requires field { IfSome field (λ f. f < 2) }
    requires deed { MayReadOne P.seen P.with_seen field (D.ready deed domain.now.protocol)
        (D.next deed domain.now.protocol) seat.old.view.client }
    ensures events { IfOk result (λ found. PopsBehind P.Kind.fits (as_part P.part domain.now)
        field front (named_both found) (seen_by P.seen seat.old) (seen_by P.seen seat.new)) }
    ensures popped { PopsWith (both_by result) (seen_by P.seen seat.old)
        (seen_by P.seen seat.new) }
    ensures why { IfErr result (λ error. IsWhyLost (λ seen now.
        LosesBehind P.Kind.fits (as_part P.part domain.now) field front seen now
        (seen_by P.seen seat.old) (seen_by P.seen seat.new)) (2 + adds_of field) error
        (seen_by P.seen seat.old)) }
    ensures makes { seat.new.view.core.makes ≡ seat.old.view.core.makes }
    ensures spent { IfErr result (λ error. error ≡ unpopped.Spent → IsSpent seat.new.view.core) }
    ensures beside { LeavesBeside P.Kind.fits domain.now P.with_seen
        (D.next deed domain.now.protocol) (D.allows deed domain.now.protocol)
        field (both_by result) seat.old seat.new }
    ensures room { HasRoom seat.new.view.core }
    ensures rest { IsAtRest domain.now seat.new }
{
    let next = match see_next(domain, seat, front) {
        Ok(Some(next)) => next,
        Ok(None) => return Ok(None),
        Err(error) => return Err(refusal_of(error)),
    };
    let popped = pop_node(domain, seat, head, front, next.slot(), field, deed);
    drop_strong::<QueueLaw, S, P>(domain, seat, next);
    match popped {
        Ok(found) => Ok(Some(found)),
        Err(error) => Err(error),
    }
}

/// A pop by a seat that has seen the next node too.
fn pop_node<S, P: HasQueue<S>, D: Deed<P>>(
    domain: &Domain<P>,
    seat: &mut Seat<P>,
    head: u32,
    front: SlotId,
    next: SlotId,
    field: Option<u32>,
    deed: D,
) -> Result<(Strong, Option<Strong>), PopError>
    requires rest { IsAtRest domain.now seat.old }
    requires room { HasRoom seat.old.view.core }
    requires head { head ≡ (P.part domain.now.protocol).head }
    requires there { head < domain.now.shape.cells }
    requires attached { IsAttached (P.seen seat.old.view.client) }
    requires next { SeesNext front next (seen_by P.seen seat.old) }
    requires field { IfSome field (λ f. f < 2) }
    requires deed { MayReadOne P.seen P.with_seen field (D.ready deed domain.now.protocol)
        (D.next deed domain.now.protocol) seat.old.view.client }
    ensures events { IfOk result (λ found. TakesItem P.Kind.fits (as_part P.part domain.now)
        field front next found.0.slot (named found.1) (seen_by P.seen seat.old)
        (seen_by P.seen seat.new)) }
    ensures popped { PopsWith (pair_by result) (seen_by P.seen seat.old)
        (seen_by P.seen seat.new) }
    ensures why { IfErr result (λ error. IsWhyLost (λ seen now.
        LosesNode P.Kind.fits (as_part P.part domain.now) field front next seen now
        (seen_by P.seen seat.old) (seen_by P.seen seat.new)) (1 + adds_of field) error
        (seen_by P.seen seat.old)) }
    ensures makes { seat.new.view.core.makes ≡ seat.old.view.core.makes }
    ensures spent { IfErr result (λ error. error ≡ unpopped.Spent → IsSpent seat.new.view.core) }
    ensures beside { LeavesBeside P.Kind.fits domain.now P.with_seen
        (D.next deed domain.now.protocol) (D.allows deed domain.now.protocol)
        field (pair_by result) seat.old seat.new }
    ensures room { HasRoom seat.new.view.core }
    ensures rest { IsAtRest domain.now seat.new }
{
    let item = match see_item(domain, seat, front, next) {
        Ok(Some(item)) => item,
        Ok(None) => {
            let seen = held_as(Some(front));
            let now = see_gone(domain, seat, head, front, next);
            return Err(PopError::Again { seen, now });
        }
        Err(error) => return Err(refusal_of(error)),
    };
    let sight = Sight {
        front,
        next,
        item: item.slot(),
    };
    match take_with(domain, seat, head, sight, field, deed) {
        Ok(content) => Ok((item, content)),
        Err(error) => {
            drop_strong::<QueueLaw, S, P>(domain, seat, item);
            Err(error)
        }
    }
}
