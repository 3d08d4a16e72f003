//! The exchanges at the end of the queue: a seat links a node behind the last one, and advances the tail cell.
ghost use Rattle.std.specs.Prelude.{◌≡◌, ◌<◌, ◌≤◌, ◌+◌, IfErr, IfOk, OnErr, None};
ghost use Rattle.slot_store.specs.core_events.Steps.{HasRoom};
ghost use Rattle.slot_store.specs.core_events.Views.{without};
ghost use Rattle.slot_store.specs.control_word.Resting.{IsAtRest, IsSpent};
ghost use Rattle.slot_store.specs.counted_handles.declared.refusal.LoadError.TheVariants as unloaded;
ghost use Rattle.queue_protocol.specs.queue_law.declared.view.Form.TheVariants.{Linked};
ghost use Rattle.queue_protocol.specs.queue_law.Pushes.{carried_item, linked_view};
ghost use Rattle.part_calls.specs.Parts.{HasBeside, as_part, seen_by};
ghost use Rattle.queue_protocol.specs.queue_law.Views.{first_view};
ghost use Rattle.linked_queue.specs.Leaving.{Leaves};
ghost use Rattle.linked_queue.specs.Pushes.{Advances, HasLoad, Helps, IsWhyUnlinked, Links, SeesBehind, SeesTail, advanced_in};
ghost use Rattle.linked_queue.specs.PushLosses.{LosesLink};
ghost use Rattle.linked_queue.specs.Queues.{IsAttached, beside_eyes};

use part_calls::{LoadError, Place, copy_strong, drop_strong, try_replace};
use queue_protocol::{AdvanceTail, HasQueue, LinkNode, QueueLaw};
use slot_store::{Domain, Seat, SlotId, Strong, held_as};

/// Advances the tail cell to a node, with a reference of its own.
pub(crate) fn help<S, P: HasQueue<S>>(
    domain: &Domain<P>,
    seat: &mut Seat<P>,
    tail: u32,
    old: SlotId,
    next: &Strong,
) -> Result<(), LoadError>
    requires rest { IsAtRest domain.now seat.old }
    requires room { HasRoom seat.old.view.core }
    requires tail { tail ≡ (P.part domain.now.protocol).tail }
    requires there { tail < domain.now.shape.cells }
    requires queue { (P.part domain.now.protocol).form ≡ Linked }
    requires attached { IsAttached (P.seen seat.old.view.client) }
    requires behind { SeesBehind old next.now.slot (seen_by P.seen seat.old) }
    ensures helps { IfOk result
        (λ done. Helps P.Kind.fits (as_part P.part domain.now) old next.now.slot
        (seen_by P.seen seat.old) (seen_by P.seen seat.new)) }
    ensures sees { IfOk result (λ done. SeesTail next.now.slot (seen_by P.seen seat.new)) }
    ensures adds { seat.new.view.core.adds ≤ seat.old.view.core.adds + 1 }
    ensures beside { beside_eyes (P.seen seat.new.view.client)
        ≡ beside_eyes (P.seen seat.old.view.client) }
    ensures makes { seat.new.view.core.makes ≡ seat.old.view.core.makes }
    ensures leaves { Leaves seat.old.view.core.owned (seen_by P.seen seat.old)
        (seen_by P.seen seat.new) }
    ensures why { IfErr result (λ error. IsWhyUnlinked (λ seen now. ⊥) 0 error
        (seen_by P.seen seat.old)) }
    ensures spent { IfErr result (λ error. error ≡ unloaded.Spent → IsSpent seat.new.view.core) }
    ensures beside_part { HasBeside P.with_seen first_view seat.old seat.new }
    ensures room { HasRoom seat.new.view.core }
    ensures rest { IsAtRest domain.now seat.new }
{
    let Ok(given) = copy_strong::<QueueLaw, S, P>(domain, seat, next) else {
        return Err(LoadError::Spent);
    };
    advance(domain, seat, tail, old, given);
    Ok(())
}

/// The tail cell gets the next node in place of the one that it held, unless another seat has advanced it already.
pub(crate) fn advance<S, P: HasQueue<S>>(
    domain: &Domain<P>,
    seat: &mut Seat<P>,
    tail: u32,
    old: SlotId,
    next: Strong,
)
    requires rest { IsAtRest domain.now seat.old }
    requires room { HasRoom seat.old.view.core }
    requires tail { tail ≡ (P.part domain.now.protocol).tail }
    requires there { tail < domain.now.shape.cells }
    requires queue { (P.part domain.now.protocol).form ≡ Linked }
    requires attached { IsAttached (P.seen seat.old.view.client) }
    requires behind { SeesBehind old next.slot (seen_by P.seen seat.old) }
    ensures advances { Advances P.Kind.fits (as_part P.part domain.now) old next.slot
        (seen_by P.seen seat.old) (seen_by P.seen seat.new) }
    ensures client { (P.seen seat.new.view.client)
        ≡ advanced_in next.slot (seen_by P.seen seat.old) (P.seen seat.old.view.client) }
    ensures adds { seat.new.view.core.adds ≡ seat.old.view.core.adds }
    ensures makes { seat.new.view.core.makes ≡ seat.old.view.core.makes }
    ensures leaves { Leaves (without next.slot seat.old.view.core.owned) (seen_by P.seen seat.old)
        (seen_by P.seen seat.new) }
    ensures beside_part { HasBeside P.with_seen first_view seat.old seat.new }
    ensures room { HasRoom seat.new.view.core }
    ensures rest { IsAtRest domain.now seat.new }
{
    if let Err(lost) = try_replace::<QueueLaw, S, P, _>(
        domain,
        seat,
        Place::Cell(tail),
        Some(old),
        Some(next),
        AdvanceTail,
    ) {
        let back = lost.back;
        let Some(next) = back else { unreachable!() };
        drop_strong::<QueueLaw, S, P>(domain, seat, next);
    }
}

/// Field 0 of the last node gets the seat's own node, which has its item pushed then.
pub(crate) fn link<S, P: HasQueue<S>>(
    domain: &Domain<P>,
    seat: &mut Seat<P>,
    last: SlotId,
    node: SlotId,
) -> Result<(), LoadError>
    requires rest { IsAtRest domain.now seat.old }
    requires room { HasRoom seat.old.view.core }
    requires queue { (P.part domain.now.protocol).form ≡ Linked }
    requires attached { IsAttached (P.seen seat.old.view.client) }
    requires tail { SeesTail last (seen_by P.seen seat.old) }
    requires load { HasLoad node (seen_by P.seen seat.old) }
    requires may { P.may_push domain.now.protocol seat.old.view.client
        (carried_item (P.seen seat.old.view.client)) }
    ensures links { IfOk result
        (λ done. Links P.Kind.fits (as_part P.part domain.now) last node (seen_by P.seen seat.old)
        (seen_by P.seen seat.new)) }
    ensures linked { IfOk result (λ done. (P.seen seat.new.view.client)
        ≡ linked_view (P.seen seat.old.view.client)) }
    ensures behind { IfOk result (λ done. SeesBehind last node (seen_by P.seen seat.new)) }
    ensures refused { OnErr result ((P.seen seat.new.view.client) ≡ (P.seen seat.old.view.client)) }
    ensures makes { seat.new.view.core.makes ≡ seat.old.view.core.makes }
    ensures leaves { Leaves seat.old.view.core.owned (seen_by P.seen seat.old)
        (seen_by P.seen seat.new) }
    ensures why { IfErr result (λ error. IsWhyUnlinked (λ seen now.
        LosesLink P.Kind.fits (as_part P.part domain.now) last node seen now
        (seen_by P.seen seat.old) (seen_by P.seen seat.new)) 0 error (seen_by P.seen seat.old)) }
    ensures spent { IfErr result (λ error. error ≡ unloaded.Spent → IsSpent seat.new.view.core) }
    ensures beside_part { HasBeside P.with_seen first_view seat.old seat.new }
    ensures room { HasRoom seat.new.view.core }
    ensures rest { IsAtRest domain.now seat.new }
{
    let Ok(given) = copy_strong::<QueueLaw, S, P>(domain, seat, &Strong::of(node)) else {
        return Err(LoadError::Spent);
    };
    let lost = match try_replace::<QueueLaw, S, P, _>(
        domain,
        seat,
        Place::Field(last, 0),
        None,
        Some(given),
        LinkNode,
    ) {
        Ok(()) => return Ok(()),
        Err(lost) => lost,
    };
    let back = lost.back;
    let Some(given) = back else { unreachable!() };
    drop_strong::<QueueLaw, S, P>(domain, seat, given);
    Err(LoadError::Moved {
        seen: held_as(None),
        now: lost.now,
    })
}
