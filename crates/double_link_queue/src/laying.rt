//! How a queue is laid.
ghost use Rattle.std.specs.Prelude.{◌≡◌, ◌≤◌, ◌<◌, ◌+◌, ◌∷◌, ◌++◌, [], IfErr, IfOk, OnErr, Some};
ghost use Rattle.weak_part_calls.specs.plain_state.declared.act.EventPlace.TheVariants.{Cell};
ghost use Rattle.weak_part_calls.specs.plain_state.Lists.{times};
ghost use Rattle.weak_part_calls.specs.plain_state.State.{no_payload};
ghost use Rattle.weak_part_calls.specs.core_events.Steps.{HasRoom};
ghost use Rattle.weak_part_calls.specs.core_events.Views.{without};
ghost use Rattle.weak_part_calls.specs.control_word.Resting.{IsAtRest, IsSpent};
ghost use Rattle.weak_part_calls.specs.slot_store.declared.making.MakeError.TheVariants as refused;
ghost use Rattle.weak_part_calls.specs.retiring_stores.Exchanging.{Stores};
ghost use Rattle.weak_part_calls.specs.slot_store.Calls.{Makes};
ghost use Rattle.linked_queue.specs.queue_law.Lessons.{TellsNothing};
ghost use Rattle.linked_queue.specs.queue_law.Nodes.{make_next};
ghost use Rattle.linked_queue.specs.queue_law.Opening.{lay_head_next, lay_tail_next};
ghost use Rattle.weak_part_calls.specs.part_calls.Parts.{HasBeside, StaysBeside, as_part, seen_by};
ghost use Rattle.linked_queue.specs.queue_law.Views.{first_view};
ghost use Rattle.linked_queue.specs.Leaving.{Leaves};
ghost use Rattle.linked_queue.specs.Nodes.{HasNode, IsHalfLaid, IsWhyUnlaid, IsWhyUnmade, Lays, half_laid_in, laid_in};
ghost use Rattle.linked_queue.specs.Queues.{CanLay, IsAttached, deeds_in};
ghost use Rattle.double_link_queue.specs.Queues.{IsDoubleOf};

use crate::queue::DoubleQueue;
use linked_queue::{HasQueue, LayHead, LayTail, MakeNode, QueueLaw};
use weak_part_calls::{
    Domain, MakeError, Place, Seat, Strong, copy_strong, drop_strong, make, store,
};

impl DoubleQueue {
    /// Lays a queue over two cells: makes the dummy, and puts it into the tail cell and then into the head cell. It is
    /// for seat 0, once, and attaches it. A refusal has the cause of the `make`, or the seat had no add left for the
    /// second reference; then nothing is laid, and a dummy that was made is given up. One make at most. At most 21
    /// steps more than there are slots, and two collects.
    pub fn lay<S, P: HasQueue<S>>(
        domain: &Domain<P>,
        seat: &mut Seat<P>,
        head: u32,
        tail: u32,
    ) -> Result<DoubleQueue, MakeError>
        requires rest { IsAtRest domain.now seat.old }
        requires room { HasRoom seat.old.view.core }
        requires queue { IsDoubleOf head tail (as_part P.part domain.now) }
        requires unlaid { CanLay (P.seen seat.old.view.client) }
        ensures queue { IfOk result (λ queue. (queue.head ≡ head) × (queue.tail ≡ tail)) }
        ensures lays { IfOk result
            (λ queue. Lays P.Kind.fits (as_part P.part domain.now) (seen_by P.seen seat.old)
            (seen_by P.seen seat.new)) }
        ensures laid { IfOk result (λ queue. deeds_in (P.seen seat.new.view.client)
            ≡ laid_in (deeds_in (P.seen seat.old.view.client))) }
        ensures attached { IfOk result (λ queue. IsAttached (P.seen seat.new.view.client)) }
        ensures refused { OnErr result (deeds_in (P.seen seat.new.view.client)
            ≡ deeds_in (P.seen seat.old.view.client)) }
        ensures why { IfErr result
            (λ error. IsWhyUnlaid P.Kind.fits (as_part P.part domain.now) error
            (seen_by P.seen seat.old) (seen_by P.seen seat.new)) }
        ensures leaves { Leaves seat.old.view.core.owned (seen_by P.seen seat.old)
            (seen_by P.seen seat.new) }
        ensures makes { seat.new.view.core.makes ≤ seat.old.view.core.makes + 1 }
        ensures makes_kept { seat.old.view.core.makes ≤ seat.new.view.core.makes }
        ensures beside { StaysBeside P.seen P.with_seen seat.old seat.new }
        ensures room { HasRoom seat.new.view.core }
        ensures rest { IsAtRest domain.now seat.new }
    {
        let dummy = make_node(domain, seat)?;
        let Ok(second) = copy_strong::<QueueLaw, S, P>(domain, seat, &dummy) else {
            drop_strong::<QueueLaw, S, P>(domain, seat, dummy);
            return Err(MakeError::AddsSpent);
        };
        lay_tail(domain, seat, tail, second);
        lay_head(domain, seat, head, dummy);
        Ok(DoubleQueue { head, tail })
    }
}

/// Makes a node, which is the seat's own.
pub(crate) fn make_node<S, P: HasQueue<S>>(
    domain: &Domain<P>,
    seat: &mut Seat<P>,
) -> Result<Strong, MakeError>
    requires rest { IsAtRest domain.now seat.old }
    requires room { HasRoom seat.old.view.core }
    ensures node { IfOk result (λ node. HasNode node.slot (seen_by P.seen seat.new)) }
    ensures made { IfOk result
        (λ node. Makes P.Kind.fits (as_part P.part domain.now) make_next TellsNothing
        no_payload node.slot (seen_by P.seen seat.old) (seen_by P.seen seat.new)) }
    ensures leaves { IfOk result (λ node. Leaves (seat.old.view.core.owned ++ node.slot ∷ [])
        (seen_by P.seen seat.old) (seen_by P.seen seat.new)) }
    ensures refused { OnErr result
        (Leaves seat.old.view.core.owned (seen_by P.seen seat.old) (seen_by P.seen seat.new)) }
    ensures makes { IfOk result
        (λ node. seat.new.view.core.makes ≡ seat.old.view.core.makes + 1) }
    ensures unmade { OnErr result (seat.new.view.core.makes ≡ seat.old.view.core.makes) }
    ensures deeds { deeds_in (P.seen seat.new.view.client)
        ≡ deeds_in (P.seen seat.old.view.client) }
    ensures why { IfErr result
        (λ error. IsWhyUnmade P.Kind.fits (as_part P.part domain.now) error
        (seen_by P.seen seat.old) (seen_by P.seen seat.new)) }
    ensures spent { IfErr result (λ error. error ≡ refused.AddsSpent → IsSpent seat.new.view.core) }
    ensures beside_part { HasBeside P.with_seen first_view seat.old seat.new }
    ensures room { HasRoom seat.new.view.core }
    ensures rest { IsAtRest domain.now seat.new }
{
    make::<QueueLaw, S, P, _>(domain, seat, &[0; 16], MakeNode)
}

/// Puts the dummy into the tail cell.
fn lay_tail<S, P: HasQueue<S>>(domain: &Domain<P>, seat: &mut Seat<P>, tail: u32, dummy: Strong)
    requires rest { IsAtRest domain.now seat.old }
    requires room { HasRoom seat.old.view.core }
    requires tail { tail ≡ (P.part domain.now.protocol).tail }
    requires there { tail < domain.now.shape.cells }
    requires node { HasNode dummy.slot (seen_by P.seen seat.old) }
    requires unlaid { CanLay (P.seen seat.old.view.client) }
    ensures stores { Stores P.Kind.fits (as_part P.part domain.now) lay_tail_next TellsNothing
        (Cell (P.part domain.now.protocol).tail) (Some dummy.slot) (seen_by P.seen seat.old)
        (seen_by P.seen seat.new) }
    ensures half { (P.seen seat.new.view.client) ≡ half_laid_in (P.seen seat.old.view.client) }
    ensures makes { seat.new.view.core.makes ≡ seat.old.view.core.makes }
    ensures leaves { Leaves (without dummy.slot seat.old.view.core.owned) (seen_by P.seen seat.old)
        (seen_by P.seen seat.new) }
    ensures beside_part { HasBeside P.with_seen first_view seat.old seat.new }
    ensures room { HasRoom seat.new.view.core }
    ensures rest { IsAtRest domain.now seat.new }
{
    store::<QueueLaw, S, P, _>(domain, seat, Place::Cell(tail), Some(dummy), LayTail);
}

/// Puts it into the head cell, and the queue is laid.
fn lay_head<S, P: HasQueue<S>>(domain: &Domain<P>, seat: &mut Seat<P>, head: u32, dummy: Strong)
    requires rest { IsAtRest domain.now seat.old }
    requires room { HasRoom seat.old.view.core }
    requires head { head ≡ (P.part domain.now.protocol).head }
    requires there { head < domain.now.shape.cells }
    requires dummy { 0 < times dummy.slot seat.old.view.core.owned }
    requires half { IsHalfLaid dummy.slot (seen_by P.seen seat.old) }
    ensures stores { Stores P.Kind.fits (as_part P.part domain.now) lay_head_next TellsNothing
        (Cell (P.part domain.now.protocol).head) (Some dummy.slot) (seen_by P.seen seat.old)
        (seen_by P.seen seat.new) }
    ensures laid { (P.seen seat.new.view.client) ≡ laid_in (P.seen seat.old.view.client) }
    ensures makes { seat.new.view.core.makes ≡ seat.old.view.core.makes }
    ensures leaves { Leaves (without dummy.slot seat.old.view.core.owned) (seen_by P.seen seat.old)
        (seen_by P.seen seat.new) }
    ensures beside_part { HasBeside P.with_seen first_view seat.old seat.new }
    ensures room { HasRoom seat.new.view.core }
    ensures rest { IsAtRest domain.now seat.new }
{
    store::<QueueLaw, S, P, _>(domain, seat, Place::Cell(head), Some(dummy), LayHead);
}
