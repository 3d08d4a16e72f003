//! The end of the queue: a seat finds the last node by the tail cell.
//!
//! The seat holds what it walks over: a reference to the node in the tail cell, then one to the node behind it. It
//! gives up the one that isn't the last node.
ghost use Rattle.std.specs.Prelude.{◌≡◌, ◌≢◌, ◌<◌, ◌≤◌, ◌+◌, false, IfErr, IfOk, IfSome, None};
ghost use Rattle.queue_protocol.specs.plain_state.declared.act.EventPlace.TheVariants.{Cell, Field};
ghost use Rattle.slot_store.specs.core_events.Steps.{HasRoom};
ghost use Rattle.part_calls.specs.atomic_shared.Places.{named};
ghost use Rattle.slot_store.specs.control_word.Resting.{IsAtRest, IsSpent};
ghost use Rattle.slot_store.specs.counted_handles.declared.refusal.LoadError.TheVariants as unloaded;
ghost use Rattle.part_calls.specs.protected_loads.References.{Loads};
ghost use Rattle.queue_protocol.specs.queue_law.declared.view.Form.TheVariants.{Linked};
ghost use Rattle.queue_protocol.specs.queue_law.Lessons.{NextTells, learn_next, next_next};
ghost use Rattle.part_calls.specs.Parts.{HasBeside, as_part, seen_by};
ghost use Rattle.queue_protocol.specs.queue_law.Views.{first_view};
ghost use Rattle.linked_queue.specs.Cells.{TailTells};
ghost use Rattle.linked_queue.specs.Leaving.{Leaves, found_by, handle_by, with_found};
ghost use Rattle.linked_queue.specs.Pushes.{FindsBehind, FindsEnd, IsWhyUnlinked, SeesBehind, SeesTail};
ghost use Rattle.linked_queue.specs.PushLosses.{LosesBehind, LosesEnd, MissesBehind, MissesTail};
ghost use Rattle.linked_queue.specs.Queues.{IsAttached, beside_eyes, ends_of};
ghost use Rattle.linked_queue.specs.Seeing.{IsWhyUnread};

use crate::ahead::help_on;
use crate::deeds::SeeTail;
use part_calls::{LoadError, Place, drop_strong, try_load};
use queue_protocol::{HasQueue, LearnNext, QueueLaw};
use slot_store::{Domain, Seat, SlotId, Strong};

/// A reference to the last node that is linked, as far as the seat can tell: the one in the tail cell or, where a node
/// follows that one, this node, to which the seat advances the tail cell.
pub(crate) fn find_last<S, P: HasQueue<S>>(
    domain: &Domain<P>,
    seat: &mut Seat<P>,
    tail: u32,
) -> Result<Strong, LoadError>
    requires rest { IsAtRest domain.now seat.old }
    requires room { HasRoom seat.old.view.core }
    requires tail { tail ≡ (P.part domain.now.protocol).tail }
    requires there { tail < domain.now.shape.cells }
    requires queue { (P.part domain.now.protocol).form ≡ Linked }
    requires attached { IsAttached (P.seen seat.old.view.client) }
    ensures events { IfOk result
        (λ last. FindsEnd P.Kind.fits (as_part P.part domain.now) last.slot
        (seen_by P.seen seat.old) (seen_by P.seen seat.new)) }
    ensures sees { IfOk result (λ last. SeesTail last.slot (seen_by P.seen seat.new)) }
    ensures adds { seat.new.view.core.adds ≤ seat.old.view.core.adds + 3 }
    ensures beside { beside_eyes (P.seen seat.new.view.client)
        ≡ beside_eyes (P.seen seat.old.view.client) }
    ensures makes { seat.new.view.core.makes ≡ seat.old.view.core.makes }
    ensures leaves { Leaves (with_found (handle_by result) seat.old.view.core.owned)
        (seen_by P.seen seat.old) (seen_by P.seen seat.new) }
    ensures why { IfErr result (λ error. IsWhyUnlinked (λ seen now.
        LosesEnd P.Kind.fits (as_part P.part domain.now) seen now
        (seen_by P.seen seat.old) (seen_by P.seen seat.new)) 2 error (seen_by P.seen seat.old)) }
    ensures spent { IfErr result (λ error. error ≡ unloaded.Spent → IsSpent seat.new.view.core) }
    ensures beside_part { HasBeside P.with_seen first_view seat.old seat.new }
    ensures room { HasRoom seat.new.view.core }
    ensures rest { IsAtRest domain.now seat.new }
{
    let first = match load_tail(domain, seat, tail) {
        Ok(Some(first)) => first,
        Ok(None) => unreachable!(),
        Err(error) => return Err(error),
    };
    match follow(domain, seat, tail, first.slot()) {
        Ok(None) => Ok(first),
        Ok(Some(next)) => {
            drop_strong::<QueueLaw, S, P>(domain, seat, first);
            Ok(next)
        }
        Err(error) => {
            drop_strong::<QueueLaw, S, P>(domain, seat, first);
            Err(error)
        }
    }
}

/// A reference to what the tail cell holds.
fn load_tail<S, P: HasQueue<S>>(
    domain: &Domain<P>,
    seat: &mut Seat<P>,
    tail: u32,
) -> Result<Option<Strong>, LoadError>
    requires rest { IsAtRest domain.now seat.old }
    requires room { HasRoom seat.old.view.core }
    requires tail { tail ≡ (P.part domain.now.protocol).tail }
    requires there { tail < domain.now.shape.cells }
    requires attached { IsAttached (P.seen seat.old.view.client) }
    ensures loads { IfOk result (λ found. Loads P.Kind.fits (as_part P.part domain.now)
        (Cell (P.part domain.now.protocol).tail) (learn_next false)
        (TailTells (ends_of (as_part P.part domain.now)))
        (named found) (seen_by P.seen seat.old) (seen_by P.seen seat.new)) }
    ensures there { IfOk result (λ found. named found ≢ None) }
    ensures sees { IfOk result
        (λ found. IfSome found (λ node. SeesTail node.slot (seen_by P.seen seat.new))) }
    ensures adds { seat.new.view.core.adds ≤ seat.old.view.core.adds + 1 }
    ensures beside { beside_eyes (P.seen seat.new.view.client)
        ≡ beside_eyes (P.seen seat.old.view.client) }
    ensures makes { seat.new.view.core.makes ≡ seat.old.view.core.makes }
    ensures leaves { Leaves (with_found (found_by result) seat.old.view.core.owned)
        (seen_by P.seen seat.old) (seen_by P.seen seat.new) }
    ensures why { IfErr result (λ error. IsWhyUnread (λ seen now.
        MissesTail P.Kind.fits (as_part P.part domain.now) seen now
        (seen_by P.seen seat.old) (seen_by P.seen seat.new)) error (seen_by P.seen seat.old)) }
    ensures spent { IfErr result (λ error. error ≡ unloaded.Spent → IsSpent seat.new.view.core) }
    ensures beside_part { HasBeside P.with_seen first_view seat.old seat.new }
    ensures room { HasRoom seat.new.view.core }
    ensures rest { IsAtRest domain.now seat.new }
{
    try_load::<QueueLaw, S, P, _>(domain, seat, Place::Cell(tail), SeeTail)
}

/// A reference to the node behind one that the tail cell held, to which the seat helps the tail cell on; `None` where
/// there is none.
fn follow<S, P: HasQueue<S>>(
    domain: &Domain<P>,
    seat: &mut Seat<P>,
    tail: u32,
    first: SlotId,
) -> Result<Option<Strong>, LoadError>
    requires rest { IsAtRest domain.now seat.old }
    requires room { HasRoom seat.old.view.core }
    requires tail { tail ≡ (P.part domain.now.protocol).tail }
    requires there { tail < domain.now.shape.cells }
    requires queue { (P.part domain.now.protocol).form ≡ Linked }
    requires attached { IsAttached (P.seen seat.old.view.client) }
    requires first { SeesTail first (seen_by P.seen seat.old) }
    ensures events { IfOk result
        (λ found. FindsBehind P.Kind.fits (as_part P.part domain.now) first (named found)
        (seen_by P.seen seat.old) (seen_by P.seen seat.new)) }
    ensures sees { IfOk result
        (λ found. IfSome found (λ next. SeesTail next.slot (seen_by P.seen seat.new))) }
    ensures last { IfOk result
        (λ found. named found ≡ None → SeesTail first (seen_by P.seen seat.new)) }
    ensures adds { seat.new.view.core.adds ≤ seat.old.view.core.adds + 2 }
    ensures beside { beside_eyes (P.seen seat.new.view.client)
        ≡ beside_eyes (P.seen seat.old.view.client) }
    ensures makes { seat.new.view.core.makes ≡ seat.old.view.core.makes }
    ensures leaves { Leaves (with_found (found_by result) seat.old.view.core.owned)
        (seen_by P.seen seat.old) (seen_by P.seen seat.new) }
    ensures why { IfErr result (λ error. IsWhyUnlinked (λ seen now.
        LosesBehind P.Kind.fits (as_part P.part domain.now) first seen now
        (seen_by P.seen seat.old) (seen_by P.seen seat.new)) 1 error (seen_by P.seen seat.old)) }
    ensures spent { IfErr result (λ error. error ≡ unloaded.Spent → IsSpent seat.new.view.core) }
    ensures beside_part { HasBeside P.with_seen first_view seat.old seat.new }
    ensures room { HasRoom seat.new.view.core }
    ensures rest { IsAtRest domain.now seat.new }
{
    let next = match see_behind(domain, seat, first) {
        Ok(Some(next)) => next,
        Ok(None) => return Ok(None),
        Err(error) => return Err(error),
    };
    match help_on(domain, seat, tail, first, &next) {
        Ok(()) => Ok(Some(next)),
        Err(error) => {
            drop_strong::<QueueLaw, S, P>(domain, seat, next);
            Err(error)
        }
    }
}

/// A reference to the node after one that the tail cell held.
fn see_behind<S, P: HasQueue<S>>(
    domain: &Domain<P>,
    seat: &mut Seat<P>,
    old: SlotId,
) -> Result<Option<Strong>, LoadError>
    requires rest { IsAtRest domain.now seat.old }
    requires room { HasRoom seat.old.view.core }
    requires tail { SeesTail old (seen_by P.seen seat.old) }
    ensures loads { IfOk result
        (λ found. Loads P.Kind.fits (as_part P.part domain.now) (Field old 0) next_next
        (NextTells (ends_of (as_part P.part domain.now))) (named found) (seen_by P.seen seat.old)
        (seen_by P.seen seat.new)) }
    ensures sees { IfOk result (λ found. IfSome found (λ node.
        SeesBehind old node.slot (seen_by P.seen seat.new))) }
    ensures last { IfOk result (λ found. SeesTail old (seen_by P.seen seat.new)) }
    ensures adds { seat.new.view.core.adds ≤ seat.old.view.core.adds + 1 }
    ensures beside { beside_eyes (P.seen seat.new.view.client)
        ≡ beside_eyes (P.seen seat.old.view.client) }
    ensures makes { seat.new.view.core.makes ≡ seat.old.view.core.makes }
    ensures leaves { Leaves (with_found (found_by result) seat.old.view.core.owned)
        (seen_by P.seen seat.old) (seen_by P.seen seat.new) }
    ensures why { IfErr result (λ error. IsWhyUnread (λ seen now.
        MissesBehind P.Kind.fits (as_part P.part domain.now) old seen now
        (seen_by P.seen seat.old) (seen_by P.seen seat.new)) error (seen_by P.seen seat.old)) }
    ensures spent { IfErr result (λ error. error ≡ unloaded.Spent → IsSpent seat.new.view.core) }
    ensures beside_part { HasBeside P.with_seen first_view seat.old seat.new }
    ensures room { HasRoom seat.new.view.core }
    ensures rest { IsAtRest domain.now seat.new }
{
    try_load::<QueueLaw, S, P, _>(domain, seat, Place::Field(old, 0), LearnNext)
}
