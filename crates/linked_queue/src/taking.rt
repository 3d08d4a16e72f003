//! The exchange of the head cell, which decides a pop, and the step that follows it.
ghost use Rattle.std.specs.Prelude.{◌≡◌, ◌<◌, ◌+◌, IfErr, IfOk, IfSome, OnErr, None};
ghost use Rattle.queue_protocol.specs.plain_state.declared.act.EventPlace.TheVariants.{Field};
ghost use Rattle.queue_protocol.specs.plain_state.Lists.{times};
ghost use Rattle.slot_store.specs.core_events.Steps.{HasRoom};
ghost use Rattle.part_calls.specs.atomic_shared.Places.{named};
ghost use Rattle.slot_store.specs.control_word.Resting.{IsAtRest, IsSpent};
ghost use Rattle.linked_queue.specs.declared.queue.PopError.TheVariants as unpopped;
ghost use Rattle.slot_store.specs.retiring_stores.Exchanging.{Stores};
ghost use Rattle.queue_protocol.specs.queue_law.Lessons.{TellsNothing};
ghost use Rattle.queue_protocol.specs.queue_law.Pops.{empty_next};
ghost use Rattle.part_calls.specs.Parts.{HasBeside, as_part, seen_by};
ghost use Rattle.queue_protocol.specs.queue_law.Views.{first_view};
ghost use Rattle.linked_queue.specs.Leaving.{Leaves, found_by, with_found, without_found};
ghost use Rattle.linked_queue.specs.Losses.{DropsFound, LosesHead, LosesWith};
ghost use Rattle.linked_queue.specs.Pops.{HasEmptied, IsWhyLost, Takes, TakesWith, adds_of, item_in, popped_too, unpopped_by};
ghost use Rattle.linked_queue.specs.Queues.{IsAttached, deeds_in};
ghost use Rattle.linked_queue.specs.Readings.{LeavesBeside, MayReadOne, taken_by};
ghost use Rattle.linked_queue.specs.Seeing.{SeesItem};
ghost use Rattle.linked_queue.specs.UnlessRipe.{next_unless};

use crate::queue::PopError;
use crate::reading::see_content;
use crate::unless_ripe::UnlessRipe;
use part_calls::{Deed, LoadError, Place, copy_strong, drop_strong, store, try_replace};
use queue_protocol::{EmptyDummy, HasQueue, QueueLaw, TakeItem};
use slot_store::{Domain, Seat, SlotId, Strong, held_as};

/// What a seat saw at the head of a queue: the slots of a node that the head cell held, of the next one, and of that
/// one's item.
#[derive(Clone, Copy, Debug, Drop)]
pub(crate) struct Sight {
    pub front: SlotId,
    pub next: SlotId,
    pub item: SlotId,
}

/// The head cell gets the next node in place of the one that it held. Then the item is popped.
fn take<S, P: HasQueue<S>>(
    domain: &Domain<P>,
    seat: &mut Seat<P>,
    head: u32,
    sight: Sight,
) -> Result<(), PopError>
    requires rest { IsAtRest domain.now seat.old }
    requires room { HasRoom seat.old.view.core }
    requires head { head ≡ (P.part domain.now.protocol).head }
    requires there { head < domain.now.shape.cells }
    requires attached { IsAttached (P.seen seat.old.view.client) }
    requires sees { SeesItem sight.front sight.next sight.item (seen_by P.seen seat.old) }
    ensures takes { IfOk result
        (λ done. Takes P.Kind.fits (as_part P.part domain.now) sight.front sight.next
        (seen_by P.seen seat.old) (seen_by P.seen seat.new)) }
    ensures popped { IfOk result (λ done. deeds_in (P.seen seat.new.view.client)
        ≡ popped_too (item_in (seen_by P.seen seat.old) sight.item)
        (deeds_in (P.seen seat.old.view.client))) }
    ensures dummy { IfOk result (λ done. HasEmptied sight.next (seen_by P.seen seat.new)) }
    ensures refused { OnErr result (deeds_in (P.seen seat.new.view.client)
        ≡ deeds_in (P.seen seat.old.view.client)) }
    ensures why { IfErr result (λ error. IsWhyLost (λ seen now. (seen ≡ sight.front.0 + 1)
        × LosesHead P.Kind.fits (as_part P.part domain.now) sight.front sight.next now
        (seen_by P.seen seat.old) (seen_by P.seen seat.new)) 0 error (seen_by P.seen seat.old)) }
    ensures makes { seat.new.view.core.makes ≡ seat.old.view.core.makes }
    ensures leaves { Leaves seat.old.view.core.owned (seen_by P.seen seat.old)
        (seen_by P.seen seat.new) }
    ensures spent { IfErr result (λ error. error ≡ unpopped.Spent → IsSpent seat.new.view.core) }
    ensures beside_part { HasBeside P.with_seen first_view seat.old seat.new }
    ensures room { HasRoom seat.new.view.core }
    ensures rest { IsAtRest domain.now seat.new }
{
    let Ok(given) = copy_strong::<QueueLaw, S, P>(domain, seat, &Strong::of(sight.next)) else {
        return Err(PopError::Spent);
    };
    let cell = Place::Cell(head);
    let lost = match try_replace::<QueueLaw, S, P, _>(
        domain,
        seat,
        cell,
        Some(sight.front),
        Some(given),
        TakeItem,
    ) {
        Ok(()) => return Ok(()),
        Err(lost) => lost,
    };
    let back = lost.back;
    let Some(given) = back else { unreachable!() };
    drop_strong::<QueueLaw, S, P>(domain, seat, given);
    Err(PopError::Again {
        seen: held_as(Some(sight.front)),
        now: lost.now,
    })
}

/// The same, with a reference to what this field of the item holds, where a field is named; and the new dummy's item is
/// cleared.
pub(crate) fn take_with<S, P: HasQueue<S>, D: Deed<P>>(
    domain: &Domain<P>,
    seat: &mut Seat<P>,
    head: u32,
    sight: Sight,
    field: Option<u32>,
    deed: D,
) -> Result<Option<Strong>, PopError>
    requires rest { IsAtRest domain.now seat.old }
    requires room { HasRoom seat.old.view.core }
    requires head { head ≡ (P.part domain.now.protocol).head }
    requires there { head < domain.now.shape.cells }
    requires attached { IsAttached (P.seen seat.old.view.client) }
    requires sees { SeesItem sight.front sight.next sight.item (seen_by P.seen seat.old) }
    requires field { IfSome field (λ f. f < 2) }
    requires deed { MayReadOne P.seen P.with_seen field (D.ready deed domain.now.protocol)
        (D.next deed domain.now.protocol) seat.old.view.client }
    ensures takes { IfOk result (λ content. TakesWith P.Kind.fits (as_part P.part domain.now)
        field sight.front sight.next sight.item (named content)
        (seen_by P.seen seat.old) (seen_by P.seen seat.new)) }
    ensures popped { IfOk result (λ content. deeds_in (P.seen seat.new.view.client)
        ≡ popped_too (item_in (seen_by P.seen seat.old) sight.item)
        (deeds_in (P.seen seat.old.view.client))) }
    ensures refused { OnErr result (deeds_in (P.seen seat.new.view.client)
        ≡ deeds_in (P.seen seat.old.view.client)) }
    ensures why { IfErr result (λ error. IsWhyLost (λ seen now.
        LosesWith P.Kind.fits (as_part P.part domain.now) field sight.front sight.next sight.item
        seen now (seen_by P.seen seat.old) (seen_by P.seen seat.new)) (adds_of field) error
        (seen_by P.seen seat.old)) }
    ensures makes { seat.new.view.core.makes ≡ seat.old.view.core.makes }
    ensures leaves { Leaves (with_found (found_by result) seat.old.view.core.owned)
        (seen_by P.seen seat.old) (seen_by P.seen seat.new) }
    ensures spent { IfErr result (λ error. error ≡ unpopped.Spent → IsSpent seat.new.view.core) }
    ensures beside { LeavesBeside P.Kind.fits domain.now P.with_seen
        (D.next deed domain.now.protocol) (D.allows deed domain.now.protocol)
        field (taken_by sight.item result) seat.old seat.new }
    ensures room { HasRoom seat.new.view.core }
    ensures rest { IsAtRest domain.now seat.new }
{
    let content = match see_content(domain, seat, sight.item, field, deed) {
        Ok(content) => content,
        Err(error) => return Err(refusal_of(error)),
    };
    if let Err(error) = take(domain, seat, head, sight) {
        drop_found(domain, seat, content);
        return Err(error);
    }
    empty(domain, seat, sight.next);
    Ok(content)
}

/// The refusal of a pop whose load was refused.
pub(crate) fn refusal_of(error: LoadError) -> PopError
    ensures { result ≡ unpopped_by error }
{
    match error {
        LoadError::Moved { seen, now } => PopError::Again { seen, now },
        LoadError::Spent => PopError::Spent,
    }
}

/// Gives up a reference that was found, if one was.
fn drop_found<S, P: HasQueue<S>>(domain: &Domain<P>, seat: &mut Seat<P>, found: Option<Strong>)
    requires rest { IsAtRest domain.now seat.old }
    requires room { HasRoom seat.old.view.core }
    requires found { IfSome found (λ strong. 0 < times strong.slot seat.old.view.core.owned) }
    ensures drops { DropsFound P.Kind.fits (as_part P.part domain.now) (named found)
        (seen_by P.seen seat.old) (seen_by P.seen seat.new) }
    ensures client { (P.seen seat.new.view.client) ≡ (P.seen seat.old.view.client) }
    ensures makes { seat.new.view.core.makes ≡ seat.old.view.core.makes }
    ensures leaves { Leaves (without_found (named found) seat.old.view.core.owned)
        (seen_by P.seen seat.old) (seen_by P.seen seat.new) }
    ensures spent { IsSpent seat.old.view.core → IsSpent seat.new.view.core }
    ensures beside_part { HasBeside P.with_seen first_view seat.old seat.new }
    ensures room { HasRoom seat.new.view.core }
    ensures rest { IsAtRest domain.now seat.new }
{
    if let Some(strong) = found {
        drop_strong::<QueueLaw, S, P>(domain, seat, strong);
    }
}

/// Clears the item of a node that the seat made the dummy.
fn empty<S, P: HasQueue<S>>(domain: &Domain<P>, seat: &mut Seat<P>, dummy: SlotId)
    requires rest { IsAtRest domain.now seat.old }
    requires room { HasRoom seat.old.view.core }
    requires dummy { HasEmptied dummy (seen_by P.seen seat.old) }
    ensures stores { Stores P.Kind.fits (as_part P.part domain.now) (next_unless empty_next)
        TellsNothing
        (Field dummy 1) None (seen_by P.seen seat.old) (seen_by P.seen seat.new) }
    ensures client { (P.seen seat.new.view.client) ≡ (P.seen seat.old.view.client) }
    ensures makes { seat.new.view.core.makes ≡ seat.old.view.core.makes }
    ensures leaves { Leaves seat.old.view.core.owned (seen_by P.seen seat.old)
        (seen_by P.seen seat.new) }
    ensures beside_part { HasBeside P.with_seen first_view seat.old seat.new }
    ensures room { HasRoom seat.new.view.core }
    ensures rest { IsAtRest domain.now seat.new }
{
    store::<QueueLaw, S, P, _>(
        domain,
        seat,
        Place::Field(dummy, 1),
        None,
        UnlessRipe { deed: EmptyDummy },
    );
}
