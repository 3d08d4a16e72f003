//! The deciding exchange of a push: a seat finds the last node, and links its own behind it.
ghost use Rattle.std.specs.Prelude.{◌≡◌, ◌<◌, IfErr, IfOk, OnErr};
ghost use Rattle.slot_store.specs.core_events.Steps.{HasRoom};
ghost use Rattle.slot_store.specs.control_word.Resting.{IsAtRest, IsSpent};
ghost use Rattle.slot_store.specs.counted_handles.declared.refusal.LoadError.TheVariants as unloaded;
ghost use Rattle.queue_protocol.specs.queue_law.declared.view.Form.TheVariants.{Linked};
ghost use Rattle.queue_protocol.specs.queue_law.Pushes.{carried_item};
ghost use Rattle.queue_protocol.specs.queue_law.Views.{first_view};
ghost use Rattle.part_calls.specs.Parts.{HasBeside, as_part, seen_by};
ghost use Rattle.linked_queue.specs.Leaving.{Leaves, handle_by, with_found};
ghost use Rattle.linked_queue.specs.Pushes.{HasLoad, IsWhyUnlinked, LinksLast, SeesBehind, pushed_too};
ghost use Rattle.linked_queue.specs.PushLosses.{LosesLast};
ghost use Rattle.linked_queue.specs.Queues.{IsAttached, beside_eyes, deeds_in};

use crate::finding::find_last;
use crate::linking::link;
use part_calls::{LoadError, drop_strong};
use queue_protocol::{HasQueue, QueueLaw};
use slot_store::{Domain, Seat, SlotId, Strong};

/// Links a node that carries its item behind the last one, to which it answers a reference. Where it is refused, the
/// node is the seat's own still.
pub(crate) fn link_last<S, P: HasQueue<S>>(
    domain: &Domain<P>,
    seat: &mut Seat<P>,
    tail: u32,
    node: SlotId,
) -> Result<Strong, LoadError>
    requires rest { IsAtRest domain.now seat.old }
    requires room { HasRoom seat.old.view.core }
    requires queue { (P.part domain.now.protocol).form ≡ Linked }
    requires tail { tail ≡ (P.part domain.now.protocol).tail }
    requires there { tail < domain.now.shape.cells }
    requires attached { IsAttached (P.seen seat.old.view.client) }
    requires load { HasLoad node (seen_by P.seen seat.old) }
    requires may { P.may_push domain.now.protocol seat.old.view.client
        (carried_item (P.seen seat.old.view.client)) }
    ensures events { IfOk result (λ last. LinksLast P.Kind.fits (as_part P.part domain.now)
        last.slot node (seen_by P.seen seat.old) (seen_by P.seen seat.new)) }
    ensures pushed { IfOk result (λ last. deeds_in (P.seen seat.new.view.client)
        ≡ pushed_too (carried_item (P.seen seat.old.view.client))
        (deeds_in (P.seen seat.old.view.client))) }
    ensures behind { IfOk result (λ last. SeesBehind last.slot node
        (seen_by P.seen seat.new)) }
    ensures refused { OnErr result (beside_eyes (P.seen seat.new.view.client)
        ≡ beside_eyes (P.seen seat.old.view.client)) }
    ensures load { OnErr result (HasLoad node (seen_by P.seen seat.new)) }
    ensures makes { seat.new.view.core.makes ≡ seat.old.view.core.makes }
    ensures leaves { Leaves (with_found (handle_by result) seat.old.view.core.owned)
        (seen_by P.seen seat.old) (seen_by P.seen seat.new) }
    ensures why { IfErr result (λ error. IsWhyUnlinked (λ seen now.
        LosesLast P.Kind.fits (as_part P.part domain.now) node seen now
        (seen_by P.seen seat.old) (seen_by P.seen seat.new)) 3 error (seen_by P.seen seat.old)) }
    ensures spent { IfErr result (λ error. error ≡ unloaded.Spent → IsSpent seat.new.view.core) }
    ensures beside_part { HasBeside P.with_seen first_view seat.old seat.new }
    ensures room { HasRoom seat.new.view.core }
    ensures rest { IsAtRest domain.now seat.new }
{
    let last = match find_last(domain, seat, tail) {
        Ok(last) => last,
        Err(error) => return Err(error),
    };
    if let Err(error) = link(domain, seat, last.slot(), node) {
        drop_strong::<QueueLaw, S, P>(domain, seat, last);
        return Err(error);
    }
    Ok(last)
}
