//! A push that tries again until no other seat is quicker. It keeps its one node through its tries.
ghost use Rattle.std.specs.Prelude.{◌≡◌, ◌<◌, ◌≤◌, ◌+◌, IfErr, IfOk, OnErr, Some};
ghost use Rattle.weak_part_calls.specs.plain_state.Lists.{times};
ghost use Rattle.weak_part_calls.specs.core_events.Steps.{HasRoom};
ghost use Rattle.weak_part_calls.specs.core_events.Views.{without};
ghost use Rattle.weak_part_calls.specs.control_word.Resting.{IsAtRest, IsSpent};
ghost use Rattle.weak_part_calls.specs.slot_store.declared.making.MakeError.TheVariants as unmade;
ghost use Rattle.linked_queue.specs.queue_law.declared.view.Form.TheVariants.{Double};
ghost use Rattle.linked_queue.specs.queue_law.Pushes.{carried_item};
ghost use Rattle.linked_queue.specs.queue_law.Views.{first_view};
ghost use Rattle.weak_part_calls.specs.part_calls.Parts.{HasBeside, StaysBeside, as_part, seen_by};
ghost use Rattle.linked_queue.specs.Leaving.{handle_by, with_found};
ghost use Rattle.linked_queue.specs.Pops.{item_in};
ghost use Rattle.linked_queue.specs.Pushes.{HasLoad, UsesNone, pushed_too};
ghost use Rattle.linked_queue.specs.Queues.{IsAttached, deeds_in};
ghost use Rattle.double_link_queue.specs.Leaving.{LeavesBoth};
ghost use Rattle.double_link_queue.specs.Pushes.{IsInFlight, Pushes, PushesNothing, beside_back, landed_in};
ghost use Rattle.double_link_queue.specs.Queues.{IsDoubleOf};
ghost use Rattle.double_link_queue.specs.Waits.{LosesAnyNode, PushesAtLast, PushesNodeAtLast, TakesAtLast};
ghost use Rattle.linked_queue.specs.Waits.{IsWhyNeverPushed, IsWhyShort};

use crate::chaining::take_last;
use crate::exchanging::land;
use crate::pushing::load_node;
use crate::queue::DoubleQueue;
use crossbeam_utils::Backoff;
use linked_queue::{HasQueue, MakeError, PushRefused, QueueLaw};
use std::sync::Wait;
use weak_part_calls::{Domain, LoadError, Seat, SlotId, Spent, Strong, drop_strong};

impl DoubleQueue {
    /// Appends an item to the queue, and gives the seat's reference to it. It tries again as long as another seat is
    /// quicker, with the node that it made first, so it may wait for other threads. It is refused with the causes of
    /// `make`; `AddsSpent` may come of a later increment of the call, and no add is left then: at most seven were left
    /// at the entry, or a try was lost. Where it is refused nothing is pushed, and the item is handed back. One make at
    /// most, and none where `make` has refused for the makes or the slots.
    pub fn push<S, P: HasQueue<S>, R: Wait>(
        &self,
        rt: &R,
        domain: &Domain<P>,
        seat: &mut Seat<P>,
        item: Strong,
    ) -> Result<(), PushRefused>
        requires rest { IsAtRest domain.now seat.old }
        requires room { HasRoom seat.old.view.core }
        requires queue { IsDoubleOf self.now.head self.now.tail (as_part P.part domain.now) }
        requires attached { IsAttached (P.seen seat.old.view.client) }
        requires item { 0 < times item.slot seat.old.view.core.owned }
        requires may { P.may_push domain.now.protocol seat.old.view.client
            (item_in (seen_by P.seen seat.old) item.slot) }
        ensures events { IfOk result (λ done. PushesAtLast P.Kind.fits (as_part P.part domain.now)
            item.slot (seen_by P.seen seat.old) (seen_by P.seen seat.new)) }
        ensures pushed { IfOk result (λ done. Pushes item.slot (seen_by P.seen seat.old)
            (seen_by P.seen seat.new)) }
        ensures refused { OnErr result (PushesNothing (seen_by P.seen seat.old)
            (seen_by P.seen seat.new)) }
        ensures makes { seat.new.view.core.makes ≤ seat.old.view.core.makes + 1 }
        ensures back { IfErr result (λ refused. refused.back ≡ item) }
        ensures why { IfErr result (λ refused. IsWhyNeverPushed P.Kind.fits
            (as_part P.part domain.now) refused.why (seen_by P.seen seat.old)
            (seen_by P.seen seat.new)) }
        ensures short { IfErr result (λ refused. refused.why ≡ unmade.AddsSpent
            → IsWhyShort 7 (LosesAnyNode P.Kind.fits (as_part P.part domain.now))
            (seen_by P.seen seat.old) (seen_by P.seen seat.new)) }
        ensures makes_kept { seat.old.view.core.makes ≤ seat.new.view.core.makes }
        ensures unmade { IfErr result
            (λ refused. UsesNone (Some refused.why) seat.old.view.core seat.new.view.core) }
        ensures attached { IsAttached (P.seen seat.new.view.client) }
        ensures beside { StaysBeside P.seen P.with_seen seat.old seat.new }
        ensures room { HasRoom seat.new.view.core }
        ensures rest { IsAtRest domain.now seat.new }
    {
        let node = match load_node(domain, seat, &item) {
            Ok(node) => node,
            Err(why) => return Err(PushRefused { why, back: item }),
        };
        match push_at_last(rt, domain, seat, self.tail, node) {
            Ok(()) => {
                drop_strong::<QueueLaw, S, P>(domain, seat, item);
                Ok(())
            }
            Err(Spent) => Err(PushRefused {
                why: MakeError::AddsSpent,
                back: item,
            }),
        }
    }
}

/// Pushes a node that carries its item, however often another seat is quicker, or gives it up.
fn push_at_last<S, P: HasQueue<S>, R: Wait>(
    rt: &R,
    domain: &Domain<P>,
    seat: &mut Seat<P>,
    tail: u32,
    node: Strong,
) -> Result<(), Spent>
    requires rest { IsAtRest domain.now seat.old }
    requires room { HasRoom seat.old.view.core }
    requires queue { (P.part domain.now.protocol).form ≡ Double }
    requires tail { tail ≡ (P.part domain.now.protocol).tail }
    requires there { tail < domain.now.shape.cells }
    requires attached { IsAttached (P.seen seat.old.view.client) }
    requires load { HasLoad node.slot (seen_by P.seen seat.old) }
    requires may { P.may_push domain.now.protocol seat.old.view.client
        (carried_item (P.seen seat.old.view.client)) }
    ensures events { IfOk result (λ done. PushesNodeAtLast P.Kind.fits (as_part P.part domain.now)
        node.slot (seen_by P.seen seat.old) (seen_by P.seen seat.new)) }
    ensures pushed { IfOk result (λ done. deeds_in (P.seen seat.new.view.client)
        ≡ pushed_too (carried_item (P.seen seat.old.view.client))
        (landed_in (deeds_in (P.seen seat.old.view.client)))) }
    ensures refused { OnErr result (deeds_in (P.seen seat.new.view.client)
        ≡ deeds_in (P.seen seat.old.view.client)) }
    ensures makes { seat.new.view.core.makes ≡ seat.old.view.core.makes }
    ensures leaves { LeavesBoth (without node.slot seat.old.view.core.owned)
        seat.old.view.core.weaks (seen_by P.seen seat.old) (seen_by P.seen seat.new) }
    ensures why { OnErr result (IsSpent seat.new.view.core) }
    ensures short { OnErr result (IsWhyShort 5
        (LosesAnyNode P.Kind.fits (as_part P.part domain.now)) (seen_by P.seen seat.old)
        (seen_by P.seen seat.new)) }
    ensures beside_part { HasBeside P.with_seen first_view seat.old seat.new }
    ensures room { HasRoom seat.new.view.core }
    ensures rest { IsAtRest domain.now seat.new }
{
    match take_at_last(rt, domain, seat, tail, node.slot()) {
        Ok(last) => {
            land(domain, seat, last.slot(), node);
            drop_strong::<QueueLaw, S, P>(domain, seat, last);
            Ok(())
        }
        Err(Spent) => {
            drop_strong::<QueueLaw, S, P>(domain, seat, node);
            Err(Spent)
        }
    }
}

/// The tail cell gets the node so, and the node before is answered, with a reference to it.
fn take_at_last<S, P: HasQueue<S>, R: Wait>(
    rt: &R,
    domain: &Domain<P>,
    seat: &mut Seat<P>,
    tail: u32,
    node: SlotId,
) -> Result<Strong, Spent>
    requires rest { IsAtRest domain.now seat.old }
    requires room { HasRoom seat.old.view.core }
    requires queue { (P.part domain.now.protocol).form ≡ Double }
    requires tail { tail ≡ (P.part domain.now.protocol).tail }
    requires there { tail < domain.now.shape.cells }
    requires attached { IsAttached (P.seen seat.old.view.client) }
    requires load { HasLoad node (seen_by P.seen seat.old) }
    requires may { P.may_push domain.now.protocol seat.old.view.client
        (carried_item (P.seen seat.old.view.client)) }
    ensures events { IfOk result (λ last. TakesAtLast P.Kind.fits (as_part P.part domain.now)
        last.slot node (seen_by P.seen seat.old) (seen_by P.seen seat.new)) }
    ensures pushed { IfOk result (λ last. landed_in (deeds_in (P.seen seat.new.view.client))
        ≡ pushed_too (carried_item (P.seen seat.old.view.client))
        (landed_in (deeds_in (P.seen seat.old.view.client)))) }
    ensures flight { IfOk result (λ last. IsInFlight last.slot node (seen_by P.seen seat.new)) }
    ensures refused { OnErr result (beside_back (P.seen seat.new.view.client)
        ≡ beside_back (P.seen seat.old.view.client)) }
    ensures makes { seat.new.view.core.makes ≡ seat.old.view.core.makes }
    ensures leaves { LeavesBoth (with_found (handle_by result) seat.old.view.core.owned)
        seat.old.view.core.weaks (seen_by P.seen seat.old) (seen_by P.seen seat.new) }
    ensures why { OnErr result (IsSpent seat.new.view.core) }
    ensures short { OnErr result (IsWhyShort 5
        (LosesAnyNode P.Kind.fits (as_part P.part domain.now)) (seen_by P.seen seat.old)
        (seen_by P.seen seat.new)) }
    ensures beside_part { HasBeside P.with_seen first_view seat.old seat.new }
    ensures room { HasRoom seat.new.view.core }
    ensures rest { IsAtRest domain.now seat.new }
{
    let backoff = Backoff::new();
    for _try in rt.forever() {
        match take_last(domain, seat, tail, node) {
            Ok(last) => return Ok(last),
            Err(LoadError::Spent) => return Err(Spent),
            Err(LoadError::Moved { .. }) => backoff.spin(),
        }
    }
    unreachable!()
}
