//! What a seat sees of a queue: the node in the head cell, the next one, and that one's item. Each is a load with the
//! deed that notes it.
ghost use Rattle.std.specs.Prelude.{◌≡◌, ◌≢◌, ◌<◌, ◌≤◌, ◌+◌, true, IfErr, IfOk, IfSome, None};
ghost use Rattle.queue_protocol.specs.plain_state.declared.act.EventPlace.TheVariants.{Cell, Field};
ghost use Rattle.slot_store.specs.core_events.Steps.{HasRoom};
ghost use Rattle.part_calls.specs.atomic_shared.Places.{named};
ghost use Rattle.slot_store.specs.control_word.Resting.{IsAtRest, IsSpent};
ghost use Rattle.slot_store.specs.counted_handles.declared.refusal.LoadError.TheVariants as unloaded;
ghost use Rattle.part_calls.specs.protected_loads.References.{Loads, Refers};
ghost use Rattle.queue_protocol.specs.queue_law.Lessons.{NextTells, learn_next, next_next};
ghost use Rattle.part_calls.specs.Parts.{HasBeside, as_part, seen_by};
ghost use Rattle.queue_protocol.specs.queue_law.Views.{first_view};
ghost use Rattle.linked_queue.specs.Cells.{HeadTells};
ghost use Rattle.linked_queue.specs.Leaving.{Leaves, found_by, handle_by, with_found};
ghost use Rattle.linked_queue.specs.Queues.{IsAttached, beside_eyes, ends_of};
ghost use Rattle.linked_queue.specs.Seeing.{FindsLast, IsWhyUnread, LoadsItem, LooksAgain, MissesHead, MissesItem, MissesNext, SeesHead, SeesItem, SeesNext, SeesNone};

use crate::deeds::{SeeGone, SeeHead, SeeItem};
use part_calls::{LoadError, Place, look, try_load};
use queue_protocol::{HasQueue, LearnNext, QueueLaw};
use slot_store::{Domain, EventPlace, Outcome, Seat, SlotId, Strong, held_as};

/// A reference to the node that the head cell holds. There is one, since the seat is attached.
pub(crate) fn see_head<S, P: HasQueue<S>>(
    domain: &Domain<P>,
    seat: &mut Seat<P>,
    head: u32,
) -> Result<Strong, LoadError>
    requires rest { IsAtRest domain.now seat.old }
    requires room { HasRoom seat.old.view.core }
    requires head { head ≡ (P.part domain.now.protocol).head }
    requires there { head < domain.now.shape.cells }
    requires attached { IsAttached (P.seen seat.old.view.client) }
    ensures loads { IfOk result (λ node. Refers P.Kind.fits (as_part P.part domain.now)
        (Cell (P.part domain.now.protocol).head) (learn_next true)
        (HeadTells (ends_of (as_part P.part domain.now)))
        node.slot (seen_by P.seen seat.old) (seen_by P.seen seat.new)) }
    ensures sees { IfOk result (λ node. SeesHead node.slot (seen_by P.seen seat.new)) }
    ensures adds { seat.new.view.core.adds ≤ seat.old.view.core.adds + 1 }
    ensures beside { beside_eyes (P.seen seat.new.view.client)
        ≡ beside_eyes (P.seen seat.old.view.client) }
    ensures makes { seat.new.view.core.makes ≡ seat.old.view.core.makes }
    ensures leaves { Leaves (with_found (handle_by result) seat.old.view.core.owned)
        (seen_by P.seen seat.old) (seen_by P.seen seat.new) }
    ensures why { IfErr result (λ error. IsWhyUnread
        (λ seen now. MissesHead P.Kind.fits (as_part P.part domain.now) seen now
        (seen_by P.seen seat.old) (seen_by P.seen seat.new)) error (seen_by P.seen seat.old)) }
    ensures spent { IfErr result (λ error. error ≡ unloaded.Spent → IsSpent seat.new.view.core) }
    ensures beside_part { HasBeside P.with_seen first_view seat.old seat.new }
    ensures room { HasRoom seat.new.view.core }
    ensures rest { IsAtRest domain.now seat.new }
{
    match load_head(domain, seat, head) {
        Ok(Some(node)) => Ok(node),
        Ok(None) => unreachable!(),
        Err(error) => Err(error),
    }
}

/// A reference to what the head cell holds.
fn load_head<S, P: HasQueue<S>>(
    domain: &Domain<P>,
    seat: &mut Seat<P>,
    head: u32,
) -> Result<Option<Strong>, LoadError>
    requires rest { IsAtRest domain.now seat.old }
    requires room { HasRoom seat.old.view.core }
    requires head { head ≡ (P.part domain.now.protocol).head }
    requires there { head < domain.now.shape.cells }
    requires attached { IsAttached (P.seen seat.old.view.client) }
    ensures loads { IfOk result (λ found. Loads P.Kind.fits (as_part P.part domain.now)
        (Cell (P.part domain.now.protocol).head) (learn_next true)
        (HeadTells (ends_of (as_part P.part domain.now)))
        (named found) (seen_by P.seen seat.old) (seen_by P.seen seat.new)) }
    ensures there { IfOk result (λ found. named found ≢ None) }
    ensures sees { IfOk result
        (λ found. IfSome found (λ node. SeesHead node.slot (seen_by P.seen seat.new))) }
    ensures adds { seat.new.view.core.adds ≤ seat.old.view.core.adds + 1 }
    ensures beside { beside_eyes (P.seen seat.new.view.client)
        ≡ beside_eyes (P.seen seat.old.view.client) }
    ensures makes { seat.new.view.core.makes ≡ seat.old.view.core.makes }
    ensures leaves { Leaves (with_found (found_by result) seat.old.view.core.owned)
        (seen_by P.seen seat.old) (seen_by P.seen seat.new) }
    ensures why { IfErr result (λ error. IsWhyUnread
        (λ seen now. MissesHead P.Kind.fits (as_part P.part domain.now) seen now
        (seen_by P.seen seat.old) (seen_by P.seen seat.new)) error (seen_by P.seen seat.old)) }
    ensures spent { IfErr result (λ error. error ≡ unloaded.Spent → IsSpent seat.new.view.core) }
    ensures beside_part { HasBeside P.with_seen first_view seat.old seat.new }
    ensures room { HasRoom seat.new.view.core }
    ensures rest { IsAtRest domain.now seat.new }
{
    try_load::<QueueLaw, S, P, _>(domain, seat, Place::Cell(head), SeeHead)
}

/// A reference to the node after one that the head cell held.
pub(crate) fn see_next<S, P: HasQueue<S>>(
    domain: &Domain<P>,
    seat: &mut Seat<P>,
    front: SlotId,
) -> Result<Option<Strong>, LoadError>
    requires rest { IsAtRest domain.now seat.old }
    requires room { HasRoom seat.old.view.core }
    requires attached { IsAttached (P.seen seat.old.view.client) }
    requires head { SeesHead front (seen_by P.seen seat.old) }
    ensures loads { IfOk result
        (λ found. Loads P.Kind.fits (as_part P.part domain.now) (Field front 0)
        next_next (NextTells (ends_of (as_part P.part domain.now))) (named found)
        (seen_by P.seen seat.old) (seen_by P.seen seat.new)) }
    ensures none { IfOk result (λ found. named found ≡ None
        → FindsLast P.Kind.fits (as_part P.part domain.now) front (seen_by P.seen seat.old)
        (seen_by P.seen seat.new)) }
    ensures sees { IfOk result (λ found. IfSome found (λ node.
        SeesNext front node.slot (seen_by P.seen seat.new))) }
    ensures adds { seat.new.view.core.adds ≤ seat.old.view.core.adds + 1 }
    ensures beside { beside_eyes (P.seen seat.new.view.client)
        ≡ beside_eyes (P.seen seat.old.view.client) }
    ensures makes { seat.new.view.core.makes ≡ seat.old.view.core.makes }
    ensures leaves { Leaves (with_found (found_by result) seat.old.view.core.owned)
        (seen_by P.seen seat.old) (seen_by P.seen seat.new) }
    ensures why { IfErr result (λ error. IsWhyUnread
        (λ seen now. MissesNext P.Kind.fits (as_part P.part domain.now) front seen now
        (seen_by P.seen seat.old) (seen_by P.seen seat.new)) error (seen_by P.seen seat.old)) }
    ensures spent { IfErr result (λ error. error ≡ unloaded.Spent → IsSpent seat.new.view.core) }
    ensures beside_part { HasBeside P.with_seen first_view seat.old seat.new }
    ensures room { HasRoom seat.new.view.core }
    ensures rest { IsAtRest domain.now seat.new }
{
    try_load::<QueueLaw, S, P, _>(domain, seat, Place::Field(front, 0), LearnNext)
}

/// A reference to the item of the node after one that the head cell held.
pub(crate) fn see_item<S, P: HasQueue<S>>(
    domain: &Domain<P>,
    seat: &mut Seat<P>,
    front: SlotId,
    next: SlotId,
) -> Result<Option<Strong>, LoadError>
    requires rest { IsAtRest domain.now seat.old }
    requires room { HasRoom seat.old.view.core }
    requires attached { IsAttached (P.seen seat.old.view.client) }
    requires next { SeesNext front next (seen_by P.seen seat.old) }
    ensures loads { IfOk result
        (λ found. LoadsItem P.Kind.fits (as_part P.part domain.now) next (named found)
        (seen_by P.seen seat.old) (seen_by P.seen seat.new)) }
    ensures none { IfOk result (λ found. named found ≡ None
        → SeesNone domain.now.shape.slots front next (seen_by P.seen seat.new)) }
    ensures sees { IfOk result (λ found. IfSome found (λ item.
        SeesItem front next item.slot (seen_by P.seen seat.new))) }
    ensures adds { seat.new.view.core.adds ≤ seat.old.view.core.adds + 1 }
    ensures beside { beside_eyes (P.seen seat.new.view.client)
        ≡ beside_eyes (P.seen seat.old.view.client) }
    ensures makes { seat.new.view.core.makes ≡ seat.old.view.core.makes }
    ensures leaves { Leaves (with_found (found_by result) seat.old.view.core.owned)
        (seen_by P.seen seat.old) (seen_by P.seen seat.new) }
    ensures why { IfErr result (λ error. IsWhyUnread
        (λ seen now. MissesItem P.Kind.fits (as_part P.part domain.now) next seen now
        (seen_by P.seen seat.old) (seen_by P.seen seat.new)) error (seen_by P.seen seat.old)) }
    ensures spent { IfErr result (λ error. error ≡ unloaded.Spent → IsSpent seat.new.view.core) }
    ensures beside_part { HasBeside P.with_seen first_view seat.old seat.new }
    ensures room { HasRoom seat.new.view.core }
    ensures rest { IsAtRest domain.now seat.new }
{
    let slots = domain.shape().slots;
    try_load::<QueueLaw, S, P, _>(domain, seat, Place::Field(next, 1), SeeItem { slots })
}

/// What the head cell holds, where the node after one that it held has no item. It is another node by now.
pub(crate) fn see_gone<S, P: HasQueue<S>>(
    domain: &Domain<P>,
    seat: &mut Seat<P>,
    head: u32,
    front: SlotId,
    next: SlotId,
) -> u64
    requires rest { IsAtRest domain.now seat.old }
    requires room { HasRoom seat.old.view.core }
    requires head { head ≡ (P.part domain.now.protocol).head }
    requires there { head < domain.now.shape.cells }
    requires gone { SeesNone domain.now.shape.slots front next (seen_by P.seen seat.old) }
    ensures looks { LooksAgain P.Kind.fits (as_part P.part domain.now) result
        (seen_by P.seen seat.old) (seen_by P.seen seat.new) }
    ensures other { result ≢ front.0 + 1 }
    ensures client { (P.seen seat.new.view.client) ≡ (P.seen seat.old.view.client) }
    ensures makes { seat.new.view.core.makes ≡ seat.old.view.core.makes }
    ensures leaves { Leaves seat.old.view.core.owned (seen_by P.seen seat.old)
        (seen_by P.seen seat.new) }
    ensures beside_part { HasBeside P.with_seen first_view seat.old seat.new }
    ensures room { HasRoom seat.new.view.core }
    ensures rest { IsAtRest domain.now seat.new }
{
    let slots = domain.shape().slots;
    let cell = EventPlace::Cell(head);
    match look::<QueueLaw, S, P, _>(domain, seat, cell, SeeGone { slots }) {
        Outcome::Found(found) => held_as(found),
        _ => 0,
    }
}
