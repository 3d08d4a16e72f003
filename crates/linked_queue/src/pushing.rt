//! A push, in one try.
//!
//! The seat makes a node and leaves a counted reference to the item in it. It finds the last node by the tail cell,
//! which it helps on where that is one behind, and exchanges that node's field 0. Then it advances the tail cell. It
//! holds the last node and its own by references that it gives up in the end.

ghost use Rattle.std.specs.Prelude.{◌≡◌, ◌<◌, ◌≤◌, ◌+◌, IfErr, IfOk, OnErr, Some};
ghost use Rattle.queue_protocol.specs.plain_state.Lists.{times};
ghost use Rattle.slot_store.specs.core_events.Steps.{HasRoom};
ghost use Rattle.slot_store.specs.core_events.Views.{without};
ghost use Rattle.slot_store.specs.control_word.Resting.{IsAtRest, IsSpent};
ghost use Rattle.slot_store.specs.counted_handles.declared.refusal.LoadError.TheVariants as unloaded;
ghost use Rattle.slot_store.specs.declared.making.MakeError.TheVariants as refused;
ghost use Rattle.queue_protocol.specs.queue_law.declared.view.Form.TheVariants.{Linked};
ghost use Rattle.queue_protocol.specs.queue_law.Pushes.{carried_item};
ghost use Rattle.part_calls.specs.Parts.{HasBeside, StaysBeside, as_part, seen_by};
ghost use Rattle.queue_protocol.specs.queue_law.Views.{first_view};
ghost use Rattle.linked_queue.specs.Leaving.{Leaves, handle_by, with_found};
ghost use Rattle.linked_queue.specs.Pops.{item_in};
ghost use Rattle.linked_queue.specs.Pushes.{HasLoad, LoadsNode, PushesBy, PushesCopy, PushesNode, IsWhyRefused, IsWhyUnlinked, Pushes, PushesNothing, UsesNone, back_of, cause_of, pushed_too};
ghost use Rattle.linked_queue.specs.PushLosses.{IsWhyUnpushed, LosesNode};
ghost use Rattle.linked_queue.specs.NotPushed.{IsWhyNotPushed, cause_in};
ghost use Rattle.linked_queue.specs.Queues.{IsAttached, IsQueueOf, deeds_in};

use crate::carrying::carry;
use crate::chaining::link_last;
use crate::laying::make_node;
use crate::linking::advance;
use crate::queue::{LinkedQueue, PushError, PushRefused};
use part_calls::{LoadError, copy_strong, drop_strong};
use queue_protocol::{HasQueue, QueueLaw};
use slot_store::{Domain, MakeError, Seat, Strong};

impl LinkedQueue {
    /// Appends an item to the queue, in one try, and gives the seat's reference to it. `Again` only where a place of
    /// the queue changed meanwhile, which this call didn't change: it showed `seen` and then `now` to events of this
    /// call. `Refused` with the causes of `make`; `AddsSpent` may come of a later increment of the call, at most five
    /// adds were left, and none is left then. Where it is refused nothing is pushed, and the item is handed back; a
    /// node that was made is given up. One make at most, and none where `make` has refused for the makes or the slots.
    /// At most 51 steps more than there are slots, and four collects.
    pub fn try_push<S, P: HasQueue<S>>(
        &self,
        domain: &Domain<P>,
        seat: &mut Seat<P>,
        item: Strong,
    ) -> Result<(), PushError>
        requires rest { IsAtRest domain.now seat.old }
        requires room { HasRoom seat.old.view.core }
        requires queue { IsQueueOf self.now.head self.now.tail (as_part P.part domain.now) }
        requires attached { IsAttached (P.seen seat.old.view.client) }
        requires item { 0 < times item.slot seat.old.view.core.owned }
        requires may { P.may_push domain.now.protocol seat.old.view.client
            (item_in (seen_by P.seen seat.old) item.slot) }
        ensures events { IfOk result
            (λ done. PushesBy P.Kind.fits (as_part P.part domain.now) item.slot
            (seen_by P.seen seat.old) (seen_by P.seen seat.new)) }
        ensures pushed { IfOk result
            (λ done. Pushes item.slot (seen_by P.seen seat.old) (seen_by P.seen seat.new)) }
        ensures refused { OnErr result
            (PushesNothing (seen_by P.seen seat.old) (seen_by P.seen seat.new)) }
        ensures back { IfErr result (λ error. back_of error ≡ item) }
        ensures owned { IfErr result (λ error.
            0 < times (back_of error).slot seat.new.view.core.owned) }
        ensures why { IfErr result
            (λ error. IsWhyUnpushed P.Kind.fits (as_part P.part domain.now) item.slot error
            (seen_by P.seen seat.old) (seen_by P.seen seat.new)) }
        ensures spent { IfErr result (λ error. cause_of error ≡ Some refused.AddsSpent
            → IsSpent seat.new.view.core) }
        ensures makes { seat.new.view.core.makes ≤ seat.old.view.core.makes + 1 }
        ensures makes_kept { seat.old.view.core.makes ≤ seat.new.view.core.makes }
        ensures unmade { IfErr result
            (λ error. UsesNone (cause_of error) seat.old.view.core seat.new.view.core) }
        ensures attached { IsAttached (P.seen seat.new.view.client) }
        ensures beside { StaysBeside P.seen P.with_seen seat.old seat.new }
        ensures room { HasRoom seat.new.view.core }
        ensures rest { IsAtRest domain.now seat.new }
    {
        push_item(domain, seat, self.tail, item)
    }
}

/// Appends an item to the queue whose tail cell this is.
fn push_item<S, P: HasQueue<S>>(
    domain: &Domain<P>,
    seat: &mut Seat<P>,
    tail: u32,
    item: Strong,
) -> Result<(), PushError>
    requires rest { IsAtRest domain.now seat.old }
    requires room { HasRoom seat.old.view.core }
    requires queue { (P.part domain.now.protocol).form ≡ Linked }
    requires tail { tail ≡ (P.part domain.now.protocol).tail }
    requires there { tail < domain.now.shape.cells }
    requires attached { IsAttached (P.seen seat.old.view.client) }
    requires item { 0 < times item.slot seat.old.view.core.owned }
    requires may { P.may_push domain.now.protocol seat.old.view.client
        (item_in (seen_by P.seen seat.old) item.slot) }
    ensures events { IfOk result
        (λ done. PushesBy P.Kind.fits (as_part P.part domain.now) item.slot
        (seen_by P.seen seat.old) (seen_by P.seen seat.new)) }
    ensures pushed { IfOk result
        (λ done. Pushes item.slot (seen_by P.seen seat.old) (seen_by P.seen seat.new)) }
    ensures refused { OnErr result
        (PushesNothing (seen_by P.seen seat.old) (seen_by P.seen seat.new)) }
    ensures back { IfErr result (λ error. back_of error ≡ item) }
    ensures why { IfErr result
        (λ error. IsWhyUnpushed P.Kind.fits (as_part P.part domain.now) item.slot error
        (seen_by P.seen seat.old) (seen_by P.seen seat.new)) }
    ensures spent { IfErr result (λ error. cause_of error ≡ Some refused.AddsSpent
        → IsSpent seat.new.view.core) }
    ensures makes { seat.new.view.core.makes ≤ seat.old.view.core.makes + 1 }
    ensures makes_kept { seat.old.view.core.makes ≤ seat.new.view.core.makes }
    ensures unmade { IfErr result
        (λ error. UsesNone (cause_of error) seat.old.view.core seat.new.view.core) }
    ensures beside_part { HasBeside P.with_seen first_view seat.old seat.new }
    ensures room { HasRoom seat.new.view.core }
    ensures rest { IsAtRest domain.now seat.new }
{
    match push_copy(domain, seat, tail, &item) {
        Ok(()) => {
            drop_strong::<QueueLaw, S, P>(domain, seat, item);
            Ok(())
        }
        Err(NotPushed::Again { seen, now }) => Err(PushError::Again {
            seen,
            now,
            back: item,
        }),
        Err(NotPushed::Refused(why)) => Err(PushError::Refused(PushRefused { why, back: item })),
    }
}

/// Why a node wasn't pushed.
enum NotPushed {
    Again { seen: u64, now: u64 },
    Refused(MakeError),
}

/// Pushes a reference of its own to the item.
fn push_copy<S, P: HasQueue<S>>(
    domain: &Domain<P>,
    seat: &mut Seat<P>,
    tail: u32,
    item: &Strong,
) -> Result<(), NotPushed>
    requires rest { IsAtRest domain.now seat.old }
    requires room { HasRoom seat.old.view.core }
    requires queue { (P.part domain.now.protocol).form ≡ Linked }
    requires tail { tail ≡ (P.part domain.now.protocol).tail }
    requires there { tail < domain.now.shape.cells }
    requires attached { IsAttached (P.seen seat.old.view.client) }
    requires item { 0 < times item.now.slot seat.old.view.core.owned }
    requires may { P.may_push domain.now.protocol seat.old.view.client
        (item_in (seen_by P.seen seat.old) item.now.slot) }
    ensures events { IfOk result
        (λ done. PushesCopy P.Kind.fits (as_part P.part domain.now) item.now.slot
        (seen_by P.seen seat.old) (seen_by P.seen seat.new)) }
    ensures pushed { IfOk result (λ done. deeds_in (P.seen seat.new.view.client)
        ≡ pushed_too (item_in (seen_by P.seen seat.old) item.now.slot)
        (deeds_in (P.seen seat.old.view.client))) }
    ensures refused { OnErr result (deeds_in (P.seen seat.new.view.client)
        ≡ deeds_in (P.seen seat.old.view.client)) }
    ensures leaves { Leaves seat.old.view.core.owned (seen_by P.seen seat.old)
        (seen_by P.seen seat.new) }
    ensures why { IfErr result
        (λ not. IsWhyNotPushed P.Kind.fits (as_part P.part domain.now) item.now.slot not
        (seen_by P.seen seat.old) (seen_by P.seen seat.new)) }
    ensures spent { IfErr result (λ not. cause_in not ≡ Some refused.AddsSpent
        → IsSpent seat.new.view.core) }
    ensures makes { seat.new.view.core.makes ≤ seat.old.view.core.makes + 1 }
    ensures makes_kept { seat.old.view.core.makes ≤ seat.new.view.core.makes }
    ensures unmade { IfErr result
        (λ not. UsesNone (cause_in not) seat.old.view.core seat.new.view.core) }
    ensures beside_part { HasBeside P.with_seen first_view seat.old seat.new }
    ensures room { HasRoom seat.new.view.core }
    ensures rest { IsAtRest domain.now seat.new }
{
    let node = match load_node(domain, seat, item) {
        Ok(node) => node,
        Err(error) => return Err(NotPushed::Refused(error)),
    };
    match push_node(domain, seat, tail, node) {
        Ok(()) => Ok(()),
        Err(LoadError::Moved { seen, now }) => Err(NotPushed::Again { seen, now }),
        Err(LoadError::Spent) => Err(NotPushed::Refused(MakeError::AddsSpent)),
    }
}

/// Makes a node with a reference of its own to the item.
pub(crate) fn load_node<S, P: HasQueue<S>>(
    domain: &Domain<P>,
    seat: &mut Seat<P>,
    item: &Strong,
) -> Result<Strong, MakeError>
    requires rest { IsAtRest domain.now seat.old }
    requires room { HasRoom seat.old.view.core }
    requires item { 0 < times item.now.slot seat.old.view.core.owned }
    ensures events { IfOk result
        (λ node. LoadsNode P.Kind.fits (as_part P.part domain.now) item.now.slot node.slot
        (seen_by P.seen seat.old) (seen_by P.seen seat.new)) }
    ensures load { IfOk result (λ node. HasLoad node.slot (seen_by P.seen seat.new)) }
    ensures carried { IfOk result (λ node. carried_item (P.seen seat.new.view.client)
        ≡ item_in (seen_by P.seen seat.old) item.now.slot) }
    ensures adds { seat.new.view.core.adds ≤ seat.old.view.core.adds + 2 }
    ensures deeds { deeds_in (P.seen seat.new.view.client)
        ≡ deeds_in (P.seen seat.old.view.client) }
    ensures leaves { Leaves (with_found (handle_by result) seat.old.view.core.owned)
        (seen_by P.seen seat.old) (seen_by P.seen seat.new) }
    ensures why { IfErr result
        (λ error. IsWhyRefused P.Kind.fits (as_part P.part domain.now) 1 error
        (seen_by P.seen seat.old) (seen_by P.seen seat.new)) }
    ensures spent { IfErr result (λ error. error ≡ refused.AddsSpent → IsSpent seat.new.view.core) }
    ensures makes { seat.new.view.core.makes ≤ seat.old.view.core.makes + 1 }
    ensures makes_kept { seat.old.view.core.makes ≤ seat.new.view.core.makes }
    ensures unmade { IfErr result
        (λ error. UsesNone (Some error) seat.old.view.core seat.new.view.core) }
    ensures beside_part { HasBeside P.with_seen first_view seat.old seat.new }
    ensures room { HasRoom seat.new.view.core }
    ensures rest { IsAtRest domain.now seat.new }
{
    let node = make_node(domain, seat)?;
    let Ok(copy) = copy_strong::<QueueLaw, S, P>(domain, seat, item) else {
        drop_strong::<QueueLaw, S, P>(domain, seat, node);
        return Err(MakeError::AddsSpent);
    };
    carry(domain, seat, node.slot(), copy);
    Ok(node)
}

/// Links a node that carries its item behind the last one, or gives it up.
fn push_node<S, P: HasQueue<S>>(
    domain: &Domain<P>,
    seat: &mut Seat<P>,
    tail: u32,
    node: Strong,
) -> Result<(), LoadError>
    requires rest { IsAtRest domain.now seat.old }
    requires room { HasRoom seat.old.view.core }
    requires queue { (P.part domain.now.protocol).form ≡ Linked }
    requires tail { tail ≡ (P.part domain.now.protocol).tail }
    requires there { tail < domain.now.shape.cells }
    requires attached { IsAttached (P.seen seat.old.view.client) }
    requires load { HasLoad node.slot (seen_by P.seen seat.old) }
    requires may { P.may_push domain.now.protocol seat.old.view.client
        (carried_item (P.seen seat.old.view.client)) }
    ensures events { IfOk result
        (λ done. PushesNode P.Kind.fits (as_part P.part domain.now) node.slot
        (seen_by P.seen seat.old) (seen_by P.seen seat.new)) }
    ensures pushed { IfOk result (λ done. deeds_in (P.seen seat.new.view.client)
        ≡ pushed_too (carried_item (P.seen seat.old.view.client))
        (deeds_in (P.seen seat.old.view.client))) }
    ensures refused { OnErr result (deeds_in (P.seen seat.new.view.client)
        ≡ deeds_in (P.seen seat.old.view.client)) }
    ensures makes { seat.new.view.core.makes ≡ seat.old.view.core.makes }
    ensures leaves { Leaves (without node.slot seat.old.view.core.owned) (seen_by P.seen seat.old)
        (seen_by P.seen seat.new) }
    ensures why { IfErr result (λ error. IsWhyUnlinked (λ seen now.
        LosesNode P.Kind.fits (as_part P.part domain.now) node.slot seen now
        (seen_by P.seen seat.old) (seen_by P.seen seat.new)) 3 error (seen_by P.seen seat.old)) }
    ensures spent { IfErr result (λ error. error ≡ unloaded.Spent → IsSpent seat.new.view.core) }
    ensures beside_part { HasBeside P.with_seen first_view seat.old seat.new }
    ensures room { HasRoom seat.new.view.core }
    ensures rest { IsAtRest domain.now seat.new }
{
    match link_last(domain, seat, tail, node.slot()) {
        Ok(last) => {
            advance(domain, seat, tail, last.slot(), node);
            drop_strong::<QueueLaw, S, P>(domain, seat, last);
            Ok(())
        }
        Err(error) => {
            drop_strong::<QueueLaw, S, P>(domain, seat, node);
            Err(error)
        }
    }
}
