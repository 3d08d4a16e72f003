//! A pop, in one try. It is that of a linked queue, since the head of a queue is the same in both of its forms.
ghost use Rattle.std.specs.Prelude.{◌≡◌, ◌<◌, IfErr, IfOk, IfSome, None, Some};
ghost use Rattle.weak_part_calls.specs.plain_state.Lists.{times};
ghost use Rattle.weak_part_calls.specs.core_events.Steps.{HasRoom};
ghost use Rattle.weak_part_calls.specs.atomic_shared.Places.{named};
ghost use Rattle.weak_part_calls.specs.control_word.Resting.{IsAtRest, IsSpent};
ghost use Rattle.linked_queue.specs.declared.queue.PopError.TheVariants as unpopped;
ghost use Rattle.weak_part_calls.specs.part_calls.Parts.{StaysBeside, as_part, seen_by};
ghost use Rattle.linked_queue.specs.Leaving.{found_by};
ghost use Rattle.linked_queue.specs.Losses.{IsWhyUnpopped};
ghost use Rattle.linked_queue.specs.Pops.{OwnsBoth, Pops, PopsAtHead, PopsAtHeadWith, PopsWith, both_by, named_both};
ghost use Rattle.linked_queue.specs.Queues.{IsAttached};
ghost use Rattle.linked_queue.specs.Readings.{LeavesBeside, MayRead};
ghost use Rattle.double_link_queue.specs.Queues.{IsDoubleOf};

use crate::queue::DoubleQueue;
use linked_queue::{HasQueue, PopError, pop_at, pop_with_at};
use weak_part_calls::{Deed, Domain, Seat, Strong};

impl DoubleQueue {
    /// Takes the first item off the queue, in one try, and answers a reference to it. `None` only where nothing was
    /// linked behind the head's node at a step of this call. `Again` only where a place of the queue changed meanwhile,
    /// which this call didn't change: it showed `seen` and then `now` to events of this call. `Spent` only where at
    /// most three adds were left, and none is left now. Then nothing is taken, and the seat has what it had. No make.
    /// At most 29 steps, and two collects.
    pub fn try_pop<S, P: HasQueue<S>>(
        &self,
        domain: &Domain<P>,
        seat: &mut Seat<P>,
    ) -> Result<Option<Strong>, PopError>
        requires rest { IsAtRest domain.now seat.old }
        requires room { HasRoom seat.old.view.core }
        requires queue { IsDoubleOf self.now.head self.now.tail (as_part P.part domain.now) }
        requires attached { IsAttached (P.seen seat.old.view.client) }
        ensures events { IfOk result
            (λ found. PopsAtHead P.Kind.fits (as_part P.part domain.now) (named found)
            (seen_by P.seen seat.old) (seen_by P.seen seat.new)) }
        ensures popped { Pops (found_by result) (seen_by P.seen seat.old)
            (seen_by P.seen seat.new) }
        ensures owned { IfOk result (λ found. IfSome found (λ item.
            0 < times item.slot seat.new.view.core.owned)) }
        ensures why { IfErr result
            (λ error. IsWhyUnpopped P.Kind.fits (as_part P.part domain.now) None 3 error
            (seen_by P.seen seat.old) (seen_by P.seen seat.new)) }
        ensures spent { IfErr result
            (λ error. error ≡ unpopped.Spent → IsSpent seat.new.view.core) }
        ensures makes { seat.new.view.core.makes ≡ seat.old.view.core.makes }
        ensures attached { IsAttached (P.seen seat.new.view.client) }
        ensures beside { StaysBeside P.seen P.with_seen seat.old seat.new }
        ensures room { HasRoom seat.new.view.core }
        ensures rest { IsAtRest domain.now seat.new }
    {
        pop_at(domain, seat, self.head)
    }

    /// Takes the first item off the queue, in one try, and answers a reference to it and one to what this field of it
    /// held, or `None` in its place where that was null. The field, 0 or 1, is read before the item is taken, so the
    /// content is that at a step of this call, and where no add is left for it the item stays. The deed goes with the
    /// look that finds null there, or else with the check of what the look found, whichever item it is; `Still` is one
    /// that learns nothing. `None` and `Spent` as in `try_pop`, with four adds in place of three; the place of `Again`
    /// may be that field too. No make. At most 35 steps, and two collects.
    pub fn try_pop_with<S, P: HasQueue<S>, D: Deed<P>>(
        &self,
        domain: &Domain<P>,
        seat: &mut Seat<P>,
        field: u32,
        deed: D,
    ) -> Result<Option<(Strong, Option<Strong>)>, PopError>
        requires rest { IsAtRest domain.now seat.old }
        requires room { HasRoom seat.old.view.core }
        requires queue { IsDoubleOf self.now.head self.now.tail (as_part P.part domain.now) }
        requires attached { IsAttached (P.seen seat.old.view.client) }
        requires field { field < 2 }
        requires deed { MayRead P.seen P.with_seen field (D.ready deed domain.now.protocol)
            (D.next deed domain.now.protocol) seat.old.view.client }
        ensures events { IfOk result
            (λ found. PopsAtHeadWith P.Kind.fits (as_part P.part domain.now) (Some field)
            (named_both found) (seen_by P.seen seat.old) (seen_by P.seen seat.new)) }
        ensures popped { PopsWith (both_by result) (seen_by P.seen seat.old)
            (seen_by P.seen seat.new) }
        ensures owned { IfOk result (λ found. IfSome found (λ pair.
            OwnsBoth pair seat.new.view.core)) }
        ensures why { IfErr result
            (λ error. IsWhyUnpopped P.Kind.fits (as_part P.part domain.now) (Some field) 4 error
            (seen_by P.seen seat.old) (seen_by P.seen seat.new)) }
        ensures spent { IfErr result
            (λ error. error ≡ unpopped.Spent → IsSpent seat.new.view.core) }
        ensures makes { seat.new.view.core.makes ≡ seat.old.view.core.makes }
        ensures attached { IsAttached (P.seen seat.new.view.client) }
        ensures beside { LeavesBeside P.Kind.fits domain.now P.with_seen
            (D.next deed domain.now.protocol) (D.allows deed domain.now.protocol)
            (Some field) (both_by result) seat.old seat.new }
        ensures room { HasRoom seat.new.view.core }
        ensures rest { IsAtRest domain.now seat.new }
    {
        pop_with_at(domain, seat, self.head, field, deed)
    }
}
