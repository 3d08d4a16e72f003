//! How a seat helps the tail cell on to the node behind the one that it held, unless another seat has done so.
//!
//! Where something is linked behind that node too, the tail cell has gone on already: it is one behind the last node at
//! most. Then the seat has noted so, and a look at the tail cell finds another word than the load of it did.
ghost use Rattle.std.specs.Prelude.{◌≡◌, ◌≢◌, ◌<◌, ◌≤◌, ◌+◌, true, IfErr, IfOk, IfSome};
ghost use Rattle.slot_store.specs.core_events.Steps.{HasRoom};
ghost use Rattle.slot_store.specs.control_word.Resting.{IsAtRest, IsSpent};
ghost use Rattle.slot_store.specs.counted_handles.declared.refusal.LoadError.TheVariants as unloaded;
ghost use Rattle.queue_protocol.specs.queue_law.declared.view.Form.TheVariants.{Linked};
ghost use Rattle.part_calls.specs.Parts.{HasBeside, as_part, seen_by};
ghost use Rattle.queue_protocol.specs.queue_law.Views.{first_view};
ghost use Rattle.linked_queue.specs.Leaving.{Leaves};
ghost use Rattle.linked_queue.specs.Pushes.{HelpsOn, IsWhyUnlinked, LooksAhead, SeesBehind, SeesTail};
ghost use Rattle.linked_queue.specs.PushLosses.{LooksAtTail, LosesPassed};
ghost use Rattle.linked_queue.specs.Queues.{IsAttached, beside_eyes};

use crate::linking::help;
use part_calls::{LoadError, look};
use queue_protocol::{FindPassed, HasQueue, LookAhead, QueueLaw};
use slot_store::{Domain, EventPlace, Outcome, Seat, SlotId, Strong, held_as};

/// Advances the tail cell to the node behind one that it held, where nothing is linked behind that node yet.
pub(crate) fn help_on<S, P: HasQueue<S>>(
    domain: &Domain<P>,
    seat: &mut Seat<P>,
    tail: u32,
    first: SlotId,
    next: &Strong,
) -> Result<(), LoadError>
    requires rest { IsAtRest domain.now seat.old }
    requires room { HasRoom seat.old.view.core }
    requires tail { tail ≡ (P.part domain.now.protocol).tail }
    requires there { tail < domain.now.shape.cells }
    requires queue { (P.part domain.now.protocol).form ≡ Linked }
    requires attached { IsAttached (P.seen seat.old.view.client) }
    requires behind { SeesBehind first next.now.slot (seen_by P.seen seat.old) }
    ensures helps { IfOk result
        (λ done. HelpsOn P.Kind.fits (as_part P.part domain.now) first next.now.slot
        (seen_by P.seen seat.old) (seen_by P.seen seat.new)) }
    ensures sees { IfOk result (λ done. SeesTail next.now.slot (seen_by P.seen seat.new)) }
    ensures adds { seat.new.view.core.adds ≤ seat.old.view.core.adds + 1 }
    ensures beside { beside_eyes (P.seen seat.new.view.client)
        ≡ beside_eyes (P.seen seat.old.view.client) }
    ensures makes { seat.new.view.core.makes ≡ seat.old.view.core.makes }
    ensures leaves { Leaves seat.old.view.core.owned (seen_by P.seen seat.old)
        (seen_by P.seen seat.new) }
    ensures why { IfErr result (λ error. IsWhyUnlinked (λ seen now.
        LosesPassed P.Kind.fits (as_part P.part domain.now) first next.now.slot seen now
        (seen_by P.seen seat.old) (seen_by P.seen seat.new)) 0 error (seen_by P.seen seat.old)) }
    ensures spent { IfErr result (λ error. error ≡ unloaded.Spent → IsSpent seat.new.view.core) }
    ensures beside_part { HasBeside P.with_seen first_view seat.old seat.new }
    ensures room { HasRoom seat.new.view.core }
    ensures rest { IsAtRest domain.now seat.new }
{
    match look_ahead(domain, seat, first, next.slot()) {
        None => help(domain, seat, tail, first, next),
        Some(_more) => Err(LoadError::Moved {
            seen: held_as(Some(first)),
            now: see_passed(domain, seat, tail, first),
        }),
    }
}

/// What is linked behind the node after one that the tail cell held. Where anything is, the tail cell has gone past the
/// one that it held.
fn look_ahead<S, P: HasQueue<S>>(
    domain: &Domain<P>,
    seat: &mut Seat<P>,
    first: SlotId,
    next: SlotId,
) -> Option<SlotId>
    requires rest { IsAtRest domain.now seat.old }
    requires room { HasRoom seat.old.view.core }
    requires queue { (P.part domain.now.protocol).form ≡ Linked }
    requires behind { SeesBehind first next (seen_by P.seen seat.old) }
    ensures looks { LooksAhead P.Kind.fits (as_part P.part domain.now) next result
        (seen_by P.seen seat.old) (seen_by P.seen seat.new) }
    ensures behind { SeesBehind first next (seen_by P.seen seat.new) }
    ensures passed { IfSome result (λ more.
        (P.seen seat.new.view.client).eyes.passed ≡ true) }
    ensures adds { seat.new.view.core.adds ≡ seat.old.view.core.adds }
    ensures beside { beside_eyes (P.seen seat.new.view.client)
        ≡ beside_eyes (P.seen seat.old.view.client) }
    ensures makes { seat.new.view.core.makes ≡ seat.old.view.core.makes }
    ensures leaves { Leaves seat.old.view.core.owned (seen_by P.seen seat.old)
        (seen_by P.seen seat.new) }
    ensures beside_part { HasBeside P.with_seen first_view seat.old seat.new }
    ensures room { HasRoom seat.new.view.core }
    ensures rest { IsAtRest domain.now seat.new }
{
    match look::<QueueLaw, S, P, _>(domain, seat, EventPlace::Field(next, 0), LookAhead) {
        Outcome::Found(found) => found,
        _ => None,
    }
}

/// What the tail cell holds, where it has gone past a node that it held. It is another one by now.
fn see_passed<S, P: HasQueue<S>>(
    domain: &Domain<P>,
    seat: &mut Seat<P>,
    tail: u32,
    first: SlotId,
) -> u64
    requires rest { IsAtRest domain.now seat.old }
    requires room { HasRoom seat.old.view.core }
    requires tail { tail ≡ (P.part domain.now.protocol).tail }
    requires there { tail < domain.now.shape.cells }
    requires first { SeesTail first (seen_by P.seen seat.old) }
    requires passed { (P.seen seat.old.view.client).eyes.passed ≡ true }
    ensures looks { LooksAtTail P.Kind.fits (as_part P.part domain.now) result
        (seen_by P.seen seat.old) (seen_by P.seen seat.new) }
    ensures other { result ≢ first.0 + 1 }
    ensures client { (P.seen seat.new.view.client) ≡ (P.seen seat.old.view.client) }
    ensures adds { seat.new.view.core.adds ≡ seat.old.view.core.adds }
    ensures makes { seat.new.view.core.makes ≡ seat.old.view.core.makes }
    ensures leaves { Leaves seat.old.view.core.owned (seen_by P.seen seat.old)
        (seen_by P.seen seat.new) }
    ensures beside_part { HasBeside P.with_seen first_view seat.old seat.new }
    ensures room { HasRoom seat.new.view.core }
    ensures rest { IsAtRest domain.now seat.new }
{
    match look::<QueueLaw, S, P, _>(domain, seat, EventPlace::Cell(tail), FindPassed) {
        Outcome::Found(found) => held_as(found),
        _ => 0,
    }
}
