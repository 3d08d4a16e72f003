//! What each call on a queue tells, whichever form the queue has.
ghost use Rattle.std.specs.Prelude.{◌≡◌, ◌≤◌, ◌<◌, ◌+◌, if◌then◌else◌, IfErr, IfOk, IfSome, OnErr, None, Some};
ghost use Rattle.double_link_queue.specs.plain_state.Lists.{times};
ghost use Rattle.double_link_queue.specs.core_events.Steps.{HasRoom};
ghost use Rattle.double_link_queue.specs.domain_rule.Views.{IsAlone};
ghost use Rattle.double_link_queue.specs.acquire_retire.Domains.{DomainState};
ghost use Rattle.double_link_queue.specs.atomic_shared.Places.{named};
ghost use Rattle.double_link_queue.specs.control_word.Resting.{IsAtRest, IsSpent};
ghost use Rattle.double_link_queue.specs.slot_store.declared.making.MakeError.TheVariants as unmade;
ghost use Rattle.double_link_queue.specs.part_calls.Parts.{StaysBeside, as_part, seen_by};
ghost use Rattle.double_link_queue.specs.queue_protocol.declared.law.QueueLaw.{QueueLaw};
ghost use Rattle.double_link_queue.specs.linked_queue.declared.queue.PopError.TheVariants as unpopped;
ghost use Rattle.double_link_queue.specs.linked_queue.Attaching.{LooksAtHead, attached_in, is_slot};
ghost use Rattle.double_link_queue.specs.linked_queue.Leaving.{Leaves, found_by};
ghost use Rattle.double_link_queue.specs.linked_queue.Losses.{IsWhyUnpopped, LosesAtHead};
ghost use Rattle.double_link_queue.specs.linked_queue.Pops.{OwnsBoth, Pops, PopsAtHead, PopsAtHeadWith, PopsWith, both_by, item_in, named_both};
ghost use Rattle.double_link_queue.specs.linked_queue.Pushes.{UsesNone, back_of, cause_of};
ghost use Rattle.double_link_queue.specs.linked_queue.Queues.{IsAttached, ends_of};
ghost use Rattle.double_link_queue.specs.linked_queue.Readings.{LeavesBeside, MayRead};
ghost use Rattle.double_link_queue.specs.linked_queue.Shuts.{CanShut, Shuts, shut_in};
ghost use Rattle.double_link_queue.specs.linked_queue.Waits.{AttachesAtLast, IsWhyNeverPushed, IsWhyShort, PopsAtLast};
ghost use Rattle.double_link_queue.specs.Pushes.{PushesNothing};
ghost use Rattle.hand_queues.specs.Pushes.{IsWhyUnpushed, LosesNodeIn, Pushes, PushesAtLastIn, PushesIn, most_adds};

use double_link_queue::{
    Deed, Domain, HasQueue, PopError, PushError, PushRefused, Seat, Spent, Strong,
};
use std::sync::Wait;

/// A queue by which seats hand references to objects on, first in, first out. A domain has it whose protocol is a
/// queue, or has one as a part.
pub trait HandQueue {
    /// The law is that of this queue, and the domain has its cells.
    ghost is_on: { Self → DomainState QueueLaw → Type 0 };

    /// Whether the queue is laid, by one look at the head cell: true exactly where that found a slot, and the seat is
    /// attached then, so it may push and pop. One step, and no make.
    fn try_attach<S, P: HasQueue<S>>(&self, domain: &Domain<P>, seat: &mut Seat<P>) -> bool
        requires rest { IsAtRest domain.now seat.old }
        requires queue { is_on self.now (as_part P.part domain.now) }
        ensures looks { (found : _) × (result ≡ is_slot found)
            × LooksAtHead P.Kind.fits (as_part P.part domain.now) found (seen_by P.seen seat.old)
            (seen_by P.seen seat.new) }
        ensures attached { (P.seen seat.new.view.client)
            ≡ (if result then attached_in (P.seen seat.old.view.client)
            else (P.seen seat.old.view.client)) }
        ensures leaves { Leaves seat.old.view.core.owned (seen_by P.seen seat.old)
            (seen_by P.seen seat.new) }
        ensures makes { seat.new.view.core.makes ≡ seat.old.view.core.makes }
        ensures beside { StaysBeside P.seen P.with_seen seat.old seat.new }
        ensures room { HasRoom seat.old.view.core → HasRoom seat.new.view.core }
        ensures rest { IsAtRest domain.now seat.new };

    /// Looks at the head cell until it finds a slot there, so it may wait for seat 0, which lays the queue. Then the
    /// seat is attached, and may push and pop. One step for each look, and no make.
    fn attach<S, P: HasQueue<S>, R: Wait>(&self, rt: &R, domain: &Domain<P>, seat: &mut Seat<P>)
        requires rest { IsAtRest domain.now seat.old }
        requires room { HasRoom seat.old.view.core }
        requires queue { is_on self.now (as_part P.part domain.now) }
        ensures looks { AttachesAtLast P.Kind.fits (as_part P.part domain.now)
            (seen_by P.seen seat.old) (seen_by P.seen seat.new) }
        ensures attached { P.seen seat.new.view.client
            ≡ attached_in (P.seen seat.old.view.client) }
        ensures leaves { Leaves seat.old.view.core.owned (seen_by P.seen seat.old)
            (seen_by P.seen seat.new) }
        ensures makes { seat.new.view.core.makes ≡ seat.old.view.core.makes }
        ensures beside { StaysBeside P.seen P.with_seen seat.old seat.new }
        ensures room { HasRoom seat.new.view.core }
        ensures rest { IsAtRest domain.now seat.new };

    /// Appends an item to the queue, in one try, and gives the seat's reference to it. `Again` where another seat was
    /// quicker, and `Refused` with the causes of `make`; `AddsSpent` may come of a later increment of the call, at most
    /// five adds were left, or seven on a doubly linked queue, and none is left then. Where it is refused nothing is
    /// pushed, and the item is handed back; a node that was made is given up. One make at most, and none where `make`
    /// has refused for the makes or the slots.
    fn try_push<S, P: HasQueue<S>>(
        &self,
        domain: &Domain<P>,
        seat: &mut Seat<P>,
        item: Strong,
    ) -> Result<(), PushError>
        requires rest { IsAtRest domain.now seat.old }
        requires room { HasRoom seat.old.view.core }
        requires queue { is_on self.now (as_part P.part domain.now) }
        requires attached { IsAttached (P.seen seat.old.view.client) }
        requires item { 0 < times item.slot seat.old.view.core.owned }
        requires may { P.may_push domain.now.protocol seat.old.view.client
            (item_in (seen_by P.seen seat.old) item.slot) }
        ensures events { IfOk result (λ done. PushesIn P.Kind.fits (as_part P.part domain.now)
            (P.part domain.now.protocol).form item.slot (seen_by P.seen seat.old)
            (seen_by P.seen seat.new)) }
        ensures pushed { IfOk result
            (λ done. Pushes item.slot (seen_by P.seen seat.old) (seen_by P.seen seat.new)) }
        ensures refused { OnErr result
            (PushesNothing (seen_by P.seen seat.old) (seen_by P.seen seat.new)) }
        ensures back { IfErr result (λ error. back_of error ≡ item) }
        ensures owned { IfErr result (λ error.
            0 < times (back_of error).slot seat.new.view.core.owned) }
        ensures why { IfErr result
            (λ error. IsWhyUnpushed P.Kind.fits (as_part P.part domain.now) item.slot error
            (seen_by P.seen seat.old) (seen_by P.seen seat.new)) }
        ensures spent { IfErr result (λ error. cause_of error ≡ Some unmade.AddsSpent
            → IsSpent seat.new.view.core) }
        ensures makes { seat.new.view.core.makes ≤ seat.old.view.core.makes + 1 }
        ensures makes_kept { seat.old.view.core.makes ≤ seat.new.view.core.makes }
        ensures unmade { IfErr result
            (λ error. UsesNone (cause_of error) seat.old.view.core seat.new.view.core) }
        ensures attached { IsAttached (P.seen seat.new.view.client) }
        ensures beside { StaysBeside P.seen P.with_seen seat.old seat.new }
        ensures room { HasRoom seat.new.view.core }
        ensures rest { IsAtRest domain.now seat.new };

    /// Appends an item to the queue, and gives the seat's reference to it. It tries again as long as another seat is
    /// quicker, with the node that it made first, so it may wait for other threads. It is refused with the causes of
    /// `make`; `AddsSpent` may come of a later increment of the call, and no add is left then: at most five were left
    /// at the entry, or seven on a doubly linked queue, or a try was lost. Where it is refused nothing is pushed, and
    /// the item is handed back. One make at most, and none where `make` has refused for the makes or the slots.
    fn push<S, P: HasQueue<S>, R: Wait>(
        &self,
        rt: &R,
        domain: &Domain<P>,
        seat: &mut Seat<P>,
        item: Strong,
    ) -> Result<(), PushRefused>
        requires rest { IsAtRest domain.now seat.old }
        requires room { HasRoom seat.old.view.core }
        requires queue { is_on self.now (as_part P.part domain.now) }
        requires attached { IsAttached (P.seen seat.old.view.client) }
        requires item { 0 < times item.slot seat.old.view.core.owned }
        requires may { P.may_push domain.now.protocol seat.old.view.client
            (item_in (seen_by P.seen seat.old) item.slot) }
        ensures events { IfOk result (λ done. PushesAtLastIn P.Kind.fits
            (as_part P.part domain.now) (P.part domain.now.protocol).form item.slot
            (seen_by P.seen seat.old) (seen_by P.seen seat.new)) }
        ensures pushed { IfOk result (λ done. Pushes item.slot (seen_by P.seen seat.old)
            (seen_by P.seen seat.new)) }
        ensures refused { OnErr result (PushesNothing (seen_by P.seen seat.old)
            (seen_by P.seen seat.new)) }
        ensures back { IfErr result (λ refused. refused.back ≡ item) }
        ensures owned { IfErr result (λ refused.
            0 < times refused.back.slot seat.new.view.core.owned) }
        ensures why { IfErr result (λ refused. IsWhyNeverPushed P.Kind.fits
            (as_part P.part domain.now) refused.why (seen_by P.seen seat.old)
            (seen_by P.seen seat.new)) }
        ensures short { IfErr result (λ refused. refused.why ≡ unmade.AddsSpent
            → IsWhyShort (most_adds (P.part domain.now.protocol).form)
            (LosesNodeIn P.Kind.fits (as_part P.part domain.now)
            (P.part domain.now.protocol).form) (seen_by P.seen seat.old)
            (seen_by P.seen seat.new)) }
        ensures makes { seat.new.view.core.makes ≤ seat.old.view.core.makes + 1 }
        ensures makes_kept { seat.old.view.core.makes ≤ seat.new.view.core.makes }
        ensures unmade { IfErr result
            (λ refused. UsesNone (Some refused.why) seat.old.view.core seat.new.view.core) }
        ensures attached { IsAttached (P.seen seat.new.view.client) }
        ensures beside { StaysBeside P.seen P.with_seen seat.old seat.new }
        ensures room { HasRoom seat.new.view.core }
        ensures rest { IsAtRest domain.now seat.new };

    /// Takes the first item off the queue, in one try, and answers a reference to it. `None` only where nothing was
    /// linked behind the head's node at a step of this call. `Again` only where a place of the queue changed meanwhile,
    /// which this call didn't change: it showed `seen` and then `now` to events of this call. `Spent` only where at
    /// most three adds were left, and none is left now. Then nothing is taken, and the seat has what it had. No make.
    /// At most 29 steps, and two collects.
    fn try_pop<S, P: HasQueue<S>>(
        &self,
        domain: &Domain<P>,
        seat: &mut Seat<P>,
    ) -> Result<Option<Strong>, PopError>
        requires rest { IsAtRest domain.now seat.old }
        requires room { HasRoom seat.old.view.core }
        requires queue { is_on self.now (as_part P.part domain.now) }
        requires attached { IsAttached (P.seen seat.old.view.client) }
        ensures events { IfOk result
            (λ found. PopsAtHead P.Kind.fits (as_part P.part domain.now) (named found)
            (seen_by P.seen seat.old) (seen_by P.seen seat.new)) }
        ensures popped { Pops (found_by result) (seen_by P.seen seat.old)
            (seen_by P.seen seat.new) }
        ensures owned { IfOk result (λ found. IfSome found (λ item.
            0 < times item.slot seat.new.view.core.owned)) }
        ensures why { IfErr result
            (λ error. IsWhyUnpopped P.Kind.fits (as_part P.part domain.now) None 3 error
            (seen_by P.seen seat.old) (seen_by P.seen seat.new)) }
        ensures spent { IfErr result
            (λ error. error ≡ unpopped.Spent → IsSpent seat.new.view.core) }
        ensures makes { seat.new.view.core.makes ≡ seat.old.view.core.makes }
        ensures attached { IsAttached (P.seen seat.new.view.client) }
        ensures beside { StaysBeside P.seen P.with_seen seat.old seat.new }
        ensures room { HasRoom seat.new.view.core }
        ensures rest { IsAtRest domain.now seat.new };

    /// Takes the first item off the queue, in one try, and answers a reference to it and one to what this field of it
    /// held, or `None` in its place where that was null. The field, 0 or 1, is read before the item is taken, so the
    /// content is that at a step of this call, and where no add is left for it the item stays. The deed goes with the
    /// look that finds null there, or else with the check of what the look found, whichever item it is; `Still` is one
    /// that learns nothing. `None` and `Spent` as in `try_pop`, with four adds in place of three; the place of `Again`
    /// may be that field too. No make. At most 35 steps, and two collects.
    fn try_pop_with<S, P: HasQueue<S>, D: Deed<P>>(
        &self,
        domain: &Domain<P>,
        seat: &mut Seat<P>,
        field: u32,
        deed: D,
    ) -> Result<Option<(Strong, Option<Strong>)>, PopError>
        requires rest { IsAtRest domain.now seat.old }
        requires room { HasRoom seat.old.view.core }
        requires queue { is_on self.now (as_part P.part domain.now) }
        requires attached { IsAttached (P.seen seat.old.view.client) }
        requires field { field < 2 }
        requires deed { MayRead P.seen P.with_seen field (D.ready deed domain.now.protocol)
            (D.next deed domain.now.protocol) seat.old.view.client }
        ensures events { IfOk result
            (λ found. PopsAtHeadWith P.Kind.fits (as_part P.part domain.now) (Some field)
            (named_both found) (seen_by P.seen seat.old) (seen_by P.seen seat.new)) }
        ensures popped { PopsWith (both_by result) (seen_by P.seen seat.old)
            (seen_by P.seen seat.new) }
        ensures owned { IfOk result (λ found. IfSome found (λ pair.
            OwnsBoth pair seat.new.view.core)) }
        ensures why { IfErr result
            (λ error. IsWhyUnpopped P.Kind.fits (as_part P.part domain.now) (Some field) 4 error
            (seen_by P.seen seat.old) (seen_by P.seen seat.new)) }
        ensures spent { IfErr result
            (λ error. error ≡ unpopped.Spent → IsSpent seat.new.view.core) }
        ensures makes { seat.new.view.core.makes ≡ seat.old.view.core.makes }
        ensures attached { IsAttached (P.seen seat.new.view.client) }
        ensures beside { LeavesBeside P.Kind.fits domain.now P.with_seen
            (D.next deed domain.now.protocol) (D.allows deed domain.now.protocol)
            (Some field) (both_by result) seat.old seat.new }
        ensures room { HasRoom seat.new.view.core }
        ensures rest { IsAtRest domain.now seat.new };

    /// Takes the first item off the queue, and answers a reference to it. It tries again as long as another seat is
    /// quicker, so it may wait for other threads. `None` only where nothing was linked behind the head's node at a step
    /// of this call. `Spent` only where no add is left: an increment of the last try found none, and at most three were
    /// left at the entry, or another try was lost before. Then nothing is taken, and the seat owns what it owned. No
    /// make. At most 29 steps and two collects for each try.
    fn pop<S, P: HasQueue<S>, R: Wait>(
        &self,
        rt: &R,
        domain: &Domain<P>,
        seat: &mut Seat<P>,
    ) -> Result<Option<Strong>, Spent>
        requires rest { IsAtRest domain.now seat.old }
        requires room { HasRoom seat.old.view.core }
        requires queue { is_on self.now (as_part P.part domain.now) }
        requires attached { IsAttached (P.seen seat.old.view.client) }
        ensures events { IfOk result (λ found. PopsAtLast P.Kind.fits (as_part P.part domain.now)
            (named found) (seen_by P.seen seat.old) (seen_by P.seen seat.new)) }
        ensures popped { Pops (found_by result) (seen_by P.seen seat.old)
            (seen_by P.seen seat.new) }
        ensures owned { IfOk result (λ found. IfSome found (λ item.
            0 < times item.slot seat.new.view.core.owned)) }
        ensures why { OnErr result (IsSpent seat.new.view.core) }
        ensures short { OnErr result (IsWhyShort 3
            (LosesAtHead P.Kind.fits (as_part P.part domain.now) None) (seen_by P.seen seat.old)
            (seen_by P.seen seat.new)) }
        ensures makes { seat.new.view.core.makes ≡ seat.old.view.core.makes }
        ensures attached { IsAttached (P.seen seat.new.view.client) }
        ensures beside { StaysBeside P.seen P.with_seen seat.old seat.new }
        ensures room { HasRoom seat.new.view.core }
        ensures rest { IsAtRest domain.now seat.new };

    /// Shuts the queue: puts null into the head cell and then into the tail cell, and notes what still waited as left.
    /// It is for seat 0, once every other seat has left. Two steps, two collects, and no make.
    fn shut<S, P: HasQueue<S>>(&self, domain: &Domain<P>, root: &mut Seat<P>)
        requires rest { IsAtRest domain.now root.old }
        requires room { HasRoom root.old.view.core }
        requires queue { is_on self.now (as_part P.part domain.now) }
        requires alone { IsAlone root.old.view }
        requires laid { CanShut (P.seen root.old.view.client) }
        ensures events { Shuts P.Kind.fits (as_part P.part domain.now) (seen_by P.seen root.old)
            (seen_by P.seen root.new) }
        ensures left { (P.seen root.new.view.client)
            ≡ shut_in (ends_of (as_part P.part domain.now)) (seen_by P.seen root.old)
            (P.seen root.old.view.client) }
        ensures makes { root.new.view.core.makes ≡ root.old.view.core.makes }
        ensures leaves { Leaves root.old.view.core.owned (seen_by P.seen root.old)
            (seen_by P.seen root.new) }
        ensures beside { StaysBeside P.seen P.with_seen root.old root.new }
        ensures room { HasRoom root.new.view.core }
        ensures rest { IsAtRest domain.now root.new };
}
