//! What a field of an item holds, which a pop may read before it takes the item.
ghost use Rattle.std.specs.Prelude.{◌≡◌, ◌<◌, ◌≤◌, ◌+◌, IfErr, IfOk, IfSome, Some};
ghost use Rattle.queue_protocol.specs.plain_state.Lists.{times};
ghost use Rattle.slot_store.specs.core_events.Steps.{HasRoom};
ghost use Rattle.part_calls.specs.atomic_shared.Places.{named};
ghost use Rattle.slot_store.specs.control_word.Resting.{IsAtRest, IsSpent};
ghost use Rattle.slot_store.specs.counted_handles.declared.refusal.LoadError.TheVariants as unloaded;
ghost use Rattle.part_calls.specs.Parts.{as_part, seen_by};
ghost use Rattle.linked_queue.specs.Leaving.{Leaves, found_by, with_found};
ghost use Rattle.linked_queue.specs.Losses.{MissesContent};
ghost use Rattle.linked_queue.specs.Pops.{Reads, adds_of};
ghost use Rattle.linked_queue.specs.Readings.{LoadsBeside, MayRead, MayReadOne};
ghost use Rattle.linked_queue.specs.Seeing.{IsWhyUnread};

use atomic_shared::try_load;
use part_calls::{Deed, LoadError, Place};
use queue_protocol::HasQueue;
use slot_store::{Domain, Seat, SlotId, Strong};

/// A reference to what this field of an item holds, where a field is named. The deed is for the step that finds it.
pub(crate) fn see_content<S, P: HasQueue<S>, D: Deed<P>>(
    domain: &Domain<P>,
    seat: &mut Seat<P>,
    item: SlotId,
    field: Option<u32>,
    deed: D,
) -> Result<Option<Strong>, LoadError>
    requires rest { IsAtRest domain.now seat.old }
    requires room { HasRoom seat.old.view.core }
    requires item { 0 < times item seat.old.view.core.owned }
    requires field { IfSome field (λ f. f < 2) }
    requires deed { MayReadOne P.seen P.with_seen field (D.ready deed domain.now.protocol)
        (D.next deed domain.now.protocol) seat.old.view.client }
    ensures reads { IfOk result (λ found. Reads P.Kind.fits (as_part P.part domain.now)
        field item (named found) (seen_by P.seen seat.old) (seen_by P.seen seat.new)) }
    ensures client { P.seen seat.new.view.client ≡ P.seen seat.old.view.client }
    ensures adds { seat.new.view.core.adds ≤ seat.old.view.core.adds + adds_of field }
    ensures makes { seat.new.view.core.makes ≡ seat.old.view.core.makes }
    ensures leaves { Leaves (with_found (found_by result) seat.old.view.core.owned)
        (seen_by P.seen seat.old) (seen_by P.seen seat.new) }
    ensures why { IfErr result (λ error. IsWhyUnread (λ seen now.
        MissesContent P.Kind.fits (as_part P.part domain.now) field item seen now
        (seen_by P.seen seat.old) (seen_by P.seen seat.new)) error (seen_by P.seen seat.old)) }
    ensures spent { IfErr result (λ error. error ≡ unloaded.Spent → IsSpent seat.new.view.core) }
    ensures beside { LoadsBeside P.Kind.fits domain.now P.with_seen
        (D.next deed domain.now.protocol) (D.allows deed domain.now.protocol)
        field item result seat.old seat.new }
    ensures room { HasRoom seat.new.view.core }
    ensures rest { IsAtRest domain.now seat.new }
{
    match field {
        Some(field) => load_content(domain, seat, item, field, deed),
        None => Ok(None),
    }
}

/// A reference to what this field of an item holds, with the deed.
fn load_content<S, P: HasQueue<S>, D: Deed<P>>(
    domain: &Domain<P>,
    seat: &mut Seat<P>,
    item: SlotId,
    field: u32,
    deed: D,
) -> Result<Option<Strong>, LoadError>
    requires rest { IsAtRest domain.now seat.old }
    requires room { HasRoom seat.old.view.core }
    requires item { 0 < times item seat.old.view.core.owned }
    requires field { field < 2 }
    requires deed { MayRead P.seen P.with_seen field (D.ready deed domain.now.protocol)
        (D.next deed domain.now.protocol) seat.old.view.client }
    ensures reads { IfOk result (λ found. Reads P.Kind.fits (as_part P.part domain.now)
        (Some field) item (named found) (seen_by P.seen seat.old) (seen_by P.seen seat.new)) }
    ensures client { P.seen seat.new.view.client ≡ P.seen seat.old.view.client }
    ensures adds { seat.new.view.core.adds ≤ seat.old.view.core.adds + 1 }
    ensures makes { seat.new.view.core.makes ≡ seat.old.view.core.makes }
    ensures leaves { Leaves (with_found (found_by result) seat.old.view.core.owned)
        (seen_by P.seen seat.old) (seen_by P.seen seat.new) }
    ensures why { IfErr result (λ error. IsWhyUnread (λ seen now.
        MissesContent P.Kind.fits (as_part P.part domain.now) (Some field) item seen now
        (seen_by P.seen seat.old) (seen_by P.seen seat.new)) error (seen_by P.seen seat.old)) }
    ensures spent { IfErr result (λ error. error ≡ unloaded.Spent → IsSpent seat.new.view.core) }
    ensures beside { LoadsBeside P.Kind.fits domain.now P.with_seen
        (D.next deed domain.now.protocol) (D.allows deed domain.now.protocol)
        (Some field) item result seat.old seat.new }
    ensures room { HasRoom seat.new.view.core }
    ensures rest { IsAtRest domain.now seat.new }
{
    try_load(domain, seat, Place::Field(item, field), deed)
}
