//! One try to take an item off the queue.
ghost use Rattle.std.specs.Prelude.{ℕ, IfErr, IfOk, IfSome, OnErr, ◌≡◌};
ghost use Rattle.control_word.specs.Resting.{IsSpent};
ghost use Rattle.linked_queue.specs.declared.queue.PopError.TheVariants as unpopped;
ghost use Rattle.linked_queue.specs.Pops.{OwnsBoth, both_by, named_both, with_both};
ghost use Rattle.weak_watch.specs.Keeping.{Keeps};
ghost use Rattle.weak_watch.specs.Queues.{CanSend};
ghost use Rattle.weak_watch.specs.Receiving.{NotesRead, OnlyReads, PopsNone, TakesOne};

use hand_queues::HandQueue;
use linked_queue::PopError;
use part_calls::{InPart, Left};
use watch_protocol::{NewsLaw, ReadDelivery, Right, WatchLaw};
use weak_part_calls::{Domain, Seat, Strong};

/// Takes the first item off the queue, in one try, with what its field 0 held, and notes to whom it is, if it is a
/// delivery. `None`, `Again` and `Spent` as a try of a pop has them; then nothing is taken. No make.
pub(crate) fn take<Q: HandQueue>(
    domain: &Domain<NewsLaw>,
    seat: &mut Seat<NewsLaw>,
    queue: &Q,
) -> Result<Option<(Strong, Option<Strong>)>, PopError>
    requires ready { CanSend (Q.is_on queue.now) domain.now seat.old }
    ensures takes { IfOk result (λ found.
        TakesOne domain.now (named_both found) seat.old seat.new) }
    ensures owned { IfOk result (λ found. IfSome found (λ pair.
        OwnsBoth pair seat.new.view.core)) }
    ensures notes { IfOk result (λ found. IfSome found (λ pair. IfSome pair.1 (λ content.
        NotesRead pair.0.slot content.slot seat.old seat.new))) }
    ensures none { OnErr result (PopsNone seat.old seat.new) }
    ensures spent { IfErr result (λ error. error ≡ unpopped.Spent → IsSpent seat.new.view.core) }
    ensures beside { OnlyReads seat.old seat.new }
    ensures keeps { (n : ℕ) × Keeps 0 n (with_both (both_by result) seat.old.view.core.owned)
        seat.old.view.core.weaks seat.old seat.new }
    ensures ready { CanSend (Q.is_on queue.now) domain.now seat.new }
{
    let deed = InPart::<WatchLaw, Right, ReadDelivery>::new(ReadDelivery);
    queue.try_pop_with::<Left, NewsLaw, InPart<WatchLaw, Right, ReadDelivery>>(
        domain, seat, 0, deed,
    )
}
