//! The end of the queue: the exchange of the tail cell, which decides a push, and the link that follows it.
ghost use Rattle.std.specs.Prelude.{◌≡◌, ◌≢◌, ◌<◌, ◌≤◌, ◌+◌, IfErr, IfOk, IfSome, OnErr, None};
ghost use Rattle.weak_part_calls.specs.core_events.Steps.{HasRoom};
ghost use Rattle.weak_part_calls.specs.core_events.Views.{without};
ghost use Rattle.weak_part_calls.specs.atomic_shared.Places.{named};
ghost use Rattle.weak_part_calls.specs.control_word.Resting.{IsAtRest, IsSpent};
ghost use Rattle.weak_part_calls.specs.counted_handles.declared.refusal.LoadError.TheVariants as unloaded;
ghost use Rattle.weak_part_calls.specs.part_calls.Parts.{HasBeside, as_part, seen_by};
ghost use Rattle.linked_queue.specs.queue_law.declared.view.Form.TheVariants.{Double};
ghost use Rattle.linked_queue.specs.queue_law.Pushes.{carried_item, flying_view};
ghost use Rattle.linked_queue.specs.queue_law.Views.{first_view};
ghost use Rattle.linked_queue.specs.Leaving.{Leaves, found_by, with_found};
ghost use Rattle.linked_queue.specs.PushLosses.{MissesTail};
ghost use Rattle.linked_queue.specs.Pushes.{IsWhyUnlinked, SeesTail};
ghost use Rattle.linked_queue.specs.Queues.{IsAttached, beside_eyes};
ghost use Rattle.linked_queue.specs.Seeing.{IsWhyUnread};
ghost use Rattle.double_link_queue.specs.Pushes.{CanExchange, IsInFlight, landed_in};
ghost use Rattle.double_link_queue.specs.Steps.{ExchangesTail, Lands, LoadsTail, LosesExchange};

use linked_queue::{ExchangeTail, HasQueue, LandPush, QueueLaw, SeeTail};
use weak_part_calls::{
    Domain, LoadError, Place, Seat, SlotId, Strong, copy_strong, drop_strong, held_as, try_load,
    try_replace,
};

/// A reference to what the tail cell holds.
pub(crate) fn load_tail<S, P: HasQueue<S>>(
    domain: &Domain<P>,
    seat: &mut Seat<P>,
    tail: u32,
) -> Result<Option<Strong>, LoadError>
    requires rest { IsAtRest domain.now seat.old }
    requires room { HasRoom seat.old.view.core }
    requires tail { tail ≡ (P.part domain.now.protocol).tail }
    requires there { tail < domain.now.shape.cells }
    requires attached { IsAttached (P.seen seat.old.view.client) }
    ensures there { IfOk result (λ found. named found ≢ None) }
    ensures sees { IfOk result
        (λ found. IfSome found (λ node. SeesTail node.slot (seen_by P.seen seat.new))) }
    ensures adds { seat.new.view.core.adds ≤ seat.old.view.core.adds + 1 }
    ensures beside { beside_eyes (P.seen seat.new.view.client)
        ≡ beside_eyes (P.seen seat.old.view.client) }
    ensures makes { seat.new.view.core.makes ≡ seat.old.view.core.makes }
    ensures leaves { Leaves (with_found (found_by result) seat.old.view.core.owned)
        (seen_by P.seen seat.old) (seen_by P.seen seat.new) }
    ensures events { IfOk result (λ found. LoadsTail P.Kind.fits (as_part P.part domain.now)
        (named found) (seen_by P.seen seat.old) (seen_by P.seen seat.new)) }
    ensures why { IfErr result (λ error. IsWhyUnread (λ seen now.
        MissesTail P.Kind.fits (as_part P.part domain.now) seen now
        (seen_by P.seen seat.old) (seen_by P.seen seat.new)) error
        (seen_by P.seen seat.old)) }
    ensures spent { IfErr result (λ error. error ≡ unloaded.Spent → IsSpent seat.new.view.core) }
    ensures beside_part { HasBeside P.with_seen first_view seat.old seat.new }
    ensures room { HasRoom seat.new.view.core }
    ensures rest { IsAtRest domain.now seat.new }
{
    try_load::<QueueLaw, S, P, _>(domain, seat, Place::Cell(tail), SeeTail)
}

/// The tail cell gets the seat's own node in place of the one that it held, and the node's item is pushed then.
pub(crate) fn exchange<S, P: HasQueue<S>>(
    domain: &Domain<P>,
    seat: &mut Seat<P>,
    tail: u32,
    last: SlotId,
    node: SlotId,
) -> Result<(), LoadError>
    requires rest { IsAtRest domain.now seat.old }
    requires room { HasRoom seat.old.view.core }
    requires queue { (P.part domain.now.protocol).form ≡ Double }
    requires tail { tail ≡ (P.part domain.now.protocol).tail }
    requires there { tail < domain.now.shape.cells }
    requires attached { IsAttached (P.seen seat.old.view.client) }
    requires ready { CanExchange last node (seen_by P.seen seat.old) }
    requires may { P.may_push domain.now.protocol seat.old.view.client
        (carried_item (P.seen seat.old.view.client)) }
    ensures pushed { IfOk result (λ done. (P.seen seat.new.view.client)
        ≡ flying_view (P.seen seat.old.view.client)) }
    ensures flight { IfOk result (λ done. IsInFlight last node (seen_by P.seen seat.new)) }
    ensures refused { OnErr result ((P.seen seat.new.view.client) ≡ (P.seen seat.old.view.client)) }
    ensures makes { seat.new.view.core.makes ≡ seat.old.view.core.makes }
    ensures leaves { Leaves seat.old.view.core.owned (seen_by P.seen seat.old)
        (seen_by P.seen seat.new) }
    ensures events { IfOk result (λ done. ExchangesTail P.Kind.fits (as_part P.part domain.now)
        last node (seen_by P.seen seat.old) (seen_by P.seen seat.new)) }
    ensures why { IfErr result (λ error. IsWhyUnlinked (λ seen now.
        LosesExchange P.Kind.fits (as_part P.part domain.now) last node seen now
        (seen_by P.seen seat.old) (seen_by P.seen seat.new)) 0
        error (seen_by P.seen seat.old)) }
    ensures spent { IfErr result (λ error. error ≡ unloaded.Spent → IsSpent seat.new.view.core) }
    ensures beside_part { HasBeside P.with_seen first_view seat.old seat.new }
    ensures room { HasRoom seat.new.view.core }
    ensures rest { IsAtRest domain.now seat.new }
{
    let Ok(given) = copy_strong::<QueueLaw, S, P>(domain, seat, &Strong::of(node)) else {
        return Err(LoadError::Spent);
    };
    let lost = match try_replace::<QueueLaw, S, P, _>(
        domain,
        seat,
        Place::Cell(tail),
        Some(last),
        Some(given),
        ExchangeTail,
    ) {
        Ok(()) => return Ok(()),
        Err(lost) => lost,
    };
    let back = lost.back;
    let Some(given) = back else { unreachable!() };
    drop_strong::<QueueLaw, S, P>(domain, seat, given);
    Err(LoadError::Moved {
        seen: held_as(Some(last)),
        now: lost.now,
    })
}

/// Field 0 of the node before gets the pushed one, unless another seat has helped it.
pub(crate) fn land<S, P: HasQueue<S>>(
    domain: &Domain<P>,
    seat: &mut Seat<P>,
    last: SlotId,
    node: Strong,
)
    requires rest { IsAtRest domain.now seat.old }
    requires room { HasRoom seat.old.view.core }
    requires flight { IsInFlight last node.slot (seen_by P.seen seat.old) }
    ensures events { Lands P.Kind.fits (as_part P.part domain.now) last node.slot
        (seen_by P.seen seat.old) (seen_by P.seen seat.new) }
    ensures landed { (P.seen seat.new.view.client) ≡ landed_in (P.seen seat.old.view.client) }
    ensures makes { seat.new.view.core.makes ≡ seat.old.view.core.makes }
    ensures leaves { Leaves (without node.slot seat.old.view.core.owned) (seen_by P.seen seat.old)
        (seen_by P.seen seat.new) }
    ensures beside_part { HasBeside P.with_seen first_view seat.old seat.new }
    ensures room { HasRoom seat.new.view.core }
    ensures rest { IsAtRest domain.now seat.new }
{
    if let Err(lost) = try_replace::<QueueLaw, S, P, _>(
        domain,
        seat,
        Place::Field(last, 0),
        None,
        Some(node),
        LandPush,
    ) {
        let back = lost.back;
        let Some(node) = back else { unreachable!() };
        drop_strong::<QueueLaw, S, P>(domain, seat, node);
    }
}
