//! A node that carries its item becomes the last one, behind the node that the tail cell held.
ghost use Rattle.std.specs.Prelude.{◌≡◌, ◌<◌, IfErr, IfOk, OnErr};
ghost use Rattle.weak_part_calls.specs.core_events.Steps.{HasRoom};
ghost use Rattle.weak_part_calls.specs.core_events.Views.{without};
ghost use Rattle.weak_part_calls.specs.control_word.Resting.{IsAtRest, IsSpent};
ghost use Rattle.weak_part_calls.specs.counted_handles.declared.refusal.LoadError.TheVariants as unloaded;
ghost use Rattle.weak_part_calls.specs.part_calls.Parts.{HasBeside, as_part, seen_by};
ghost use Rattle.linked_queue.specs.queue_law.declared.view.Form.TheVariants.{Double};
ghost use Rattle.linked_queue.specs.queue_law.Pushes.{carried_item};
ghost use Rattle.linked_queue.specs.queue_law.Views.{first_view};
ghost use Rattle.linked_queue.specs.Leaving.{handle_by, with_found};
ghost use Rattle.linked_queue.specs.Pushes.{HasLoad, IsWhyUnlinked, SeesTail, pushed_too};
ghost use Rattle.linked_queue.specs.Queues.{IsAttached, deeds_in};
ghost use Rattle.double_link_queue.specs.Leaving.{LeavesBoth};
ghost use Rattle.double_link_queue.specs.Pushes.{IsInFlight, beside_back, landed_in};
ghost use Rattle.double_link_queue.specs.Steps.{LosesLast, LosesNode, LosesTake, PushesNode, TakesLast, TakesTail};

use crate::backing::link_back;
use crate::exchanging::{exchange, land, load_tail};
use crate::helping::help;
use linked_queue::{HasQueue, QueueLaw};
use weak_part_calls::{Domain, LoadError, Seat, SlotId, Strong, drop_strong};

/// Pushes a node that carries its item, or gives it up.
pub(crate) fn push_node<S, P: HasQueue<S>>(
    domain: &Domain<P>,
    seat: &mut Seat<P>,
    tail: u32,
    node: Strong,
) -> Result<(), LoadError>
    requires rest { IsAtRest domain.now seat.old }
    requires room { HasRoom seat.old.view.core }
    requires queue { (P.part domain.now.protocol).form ≡ Double }
    requires tail { tail ≡ (P.part domain.now.protocol).tail }
    requires there { tail < domain.now.shape.cells }
    requires attached { IsAttached (P.seen seat.old.view.client) }
    requires load { HasLoad node.slot (seen_by P.seen seat.old) }
    requires may { P.may_push domain.now.protocol seat.old.view.client
        (carried_item (P.seen seat.old.view.client)) }
    ensures pushed { IfOk result (λ done. deeds_in (P.seen seat.new.view.client)
        ≡ pushed_too (carried_item (P.seen seat.old.view.client))
        (landed_in (deeds_in (P.seen seat.old.view.client)))) }
    ensures refused { OnErr result (deeds_in (P.seen seat.new.view.client)
        ≡ deeds_in (P.seen seat.old.view.client)) }
    ensures makes { seat.new.view.core.makes ≡ seat.old.view.core.makes }
    ensures leaves { LeavesBoth (without node.slot seat.old.view.core.owned)
        seat.old.view.core.weaks (seen_by P.seen seat.old) (seen_by P.seen seat.new) }
    ensures events { IfOk result (λ done. PushesNode P.Kind.fits (as_part P.part domain.now)
        node.slot (seen_by P.seen seat.old) (seen_by P.seen seat.new)) }
    ensures why { IfErr result (λ error. IsWhyUnlinked (λ seen now.
        LosesNode P.Kind.fits (as_part P.part domain.now) node.slot seen now
        (seen_by P.seen seat.old) (seen_by P.seen seat.new)) 5
        error (seen_by P.seen seat.old)) }
    ensures spent { IfErr result (λ error. error ≡ unloaded.Spent → IsSpent seat.new.view.core) }
    ensures beside_part { HasBeside P.with_seen first_view seat.old seat.new }
    ensures room { HasRoom seat.new.view.core }
    ensures rest { IsAtRest domain.now seat.new }
{
    match take_last(domain, seat, tail, node.slot()) {
        Ok(last) => {
            land(domain, seat, last.slot(), node);
            drop_strong::<QueueLaw, S, P>(domain, seat, last);
            Ok(())
        }
        Err(error) => {
            drop_strong::<QueueLaw, S, P>(domain, seat, node);
            Err(error)
        }
    }
}

/// The tail cell gets the node, and the node before is answered, with a reference to it.
pub(crate) fn take_last<S, P: HasQueue<S>>(
    domain: &Domain<P>,
    seat: &mut Seat<P>,
    tail: u32,
    node: SlotId,
) -> Result<Strong, LoadError>
    requires rest { IsAtRest domain.now seat.old }
    requires room { HasRoom seat.old.view.core }
    requires queue { (P.part domain.now.protocol).form ≡ Double }
    requires tail { tail ≡ (P.part domain.now.protocol).tail }
    requires there { tail < domain.now.shape.cells }
    requires attached { IsAttached (P.seen seat.old.view.client) }
    requires load { HasLoad node (seen_by P.seen seat.old) }
    requires may { P.may_push domain.now.protocol seat.old.view.client
        (carried_item (P.seen seat.old.view.client)) }
    ensures pushed { IfOk result (λ last. landed_in (deeds_in (P.seen seat.new.view.client))
        ≡ pushed_too (carried_item (P.seen seat.old.view.client))
        (landed_in (deeds_in (P.seen seat.old.view.client)))) }
    ensures flight { IfOk result (λ last. IsInFlight last.slot node (seen_by P.seen seat.new)) }
    ensures refused { OnErr result (beside_back (P.seen seat.new.view.client)
        ≡ beside_back (P.seen seat.old.view.client)) }
    ensures load { OnErr result (HasLoad node (seen_by P.seen seat.new)) }
    ensures makes { seat.new.view.core.makes ≡ seat.old.view.core.makes }
    ensures leaves { LeavesBoth (with_found (handle_by result) seat.old.view.core.owned)
        seat.old.view.core.weaks (seen_by P.seen seat.old) (seen_by P.seen seat.new) }
    ensures events { IfOk result (λ last. TakesLast P.Kind.fits (as_part P.part domain.now)
        last.slot node (seen_by P.seen seat.old) (seen_by P.seen seat.new)) }
    ensures why { IfErr result (λ error. IsWhyUnlinked (λ seen now.
        LosesLast P.Kind.fits (as_part P.part domain.now) node seen now
        (seen_by P.seen seat.old) (seen_by P.seen seat.new)) 5
        error (seen_by P.seen seat.old)) }
    ensures spent { IfErr result (λ error. error ≡ unloaded.Spent → IsSpent seat.new.view.core) }
    ensures beside_part { HasBeside P.with_seen first_view seat.old seat.new }
    ensures room { HasRoom seat.new.view.core }
    ensures rest { IsAtRest domain.now seat.new }
{
    let last = match load_tail(domain, seat, tail) {
        Ok(Some(last)) => last,
        Ok(None) => unreachable!(),
        Err(error) => return Err(error),
    };
    if let Err(error) = take_tail(domain, seat, tail, &last, node) {
        drop_strong::<QueueLaw, S, P>(domain, seat, last);
        return Err(error);
    }
    Ok(last)
}

/// Links the node back, helps the node before, and exchanges the tail cell.
fn take_tail<S, P: HasQueue<S>>(
    domain: &Domain<P>,
    seat: &mut Seat<P>,
    tail: u32,
    last: &Strong,
    node: SlotId,
) -> Result<(), LoadError>
    requires rest { IsAtRest domain.now seat.old }
    requires room { HasRoom seat.old.view.core }
    requires queue { (P.part domain.now.protocol).form ≡ Double }
    requires tail { tail ≡ (P.part domain.now.protocol).tail }
    requires there { tail < domain.now.shape.cells }
    requires attached { IsAttached (P.seen seat.old.view.client) }
    requires last { SeesTail last.now.slot (seen_by P.seen seat.old) }
    requires load { HasLoad node (seen_by P.seen seat.old) }
    requires may { P.may_push domain.now.protocol seat.old.view.client
        (carried_item (P.seen seat.old.view.client)) }
    ensures pushed { IfOk result (λ done. landed_in (deeds_in (P.seen seat.new.view.client))
        ≡ pushed_too (carried_item (P.seen seat.old.view.client))
        (landed_in (deeds_in (P.seen seat.old.view.client)))) }
    ensures flight { IfOk result
        (λ done. IsInFlight last.now.slot node (seen_by P.seen seat.new)) }
    ensures refused { OnErr result (beside_back (P.seen seat.new.view.client)
        ≡ beside_back (P.seen seat.old.view.client)) }
    ensures load { OnErr result (HasLoad node (seen_by P.seen seat.new)) }
    ensures makes { seat.new.view.core.makes ≡ seat.old.view.core.makes }
    ensures leaves { LeavesBoth seat.old.view.core.owned seat.old.view.core.weaks
        (seen_by P.seen seat.old) (seen_by P.seen seat.new) }
    ensures events { IfOk result (λ done. TakesTail P.Kind.fits (as_part P.part domain.now)
        last.now.slot node (seen_by P.seen seat.old) (seen_by P.seen seat.new)) }
    ensures why { IfErr result (λ error. IsWhyUnlinked (λ seen now.
        LosesTake P.Kind.fits (as_part P.part domain.now) last.now.slot node seen now
        (seen_by P.seen seat.old) (seen_by P.seen seat.new)) 4
        error (seen_by P.seen seat.old)) }
    ensures spent { IfErr result (λ error. error ≡ unloaded.Spent → IsSpent seat.new.view.core) }
    ensures beside_part { HasBeside P.with_seen first_view seat.old seat.new }
    ensures room { HasRoom seat.new.view.core }
    ensures rest { IsAtRest domain.now seat.new }
{
    let Ok(()) = link_back(domain, seat, last, node) else {
        return Err(LoadError::Spent);
    };
    if let Err(error) = help(domain, seat, last) {
        return Err(error);
    }
    exchange(domain, seat, tail, last.slot(), node)
}
