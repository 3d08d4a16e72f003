//! A node that leads back to the one that the tail cell held.
ghost use Rattle.std.specs.Prelude.{◌≡◌, ◌<◌, ◌≤◌, ◌+◌, IfErr, IfOk, OnErr, Some};
ghost use Rattle.weak_part_calls.specs.plain_state.Lists.{times};
ghost use Rattle.weak_part_calls.specs.core_events.Steps.{HasRoom};
ghost use Rattle.weak_part_calls.specs.core_events.Views.{without};
ghost use Rattle.weak_part_calls.specs.control_word.Resting.{IsAtRest, IsSpent};
ghost use Rattle.weak_part_calls.specs.part_calls.Parts.{HasBeside, as_part, seen_by};
ghost use Rattle.weak_part_calls.specs.plain_state.declared.act.EventPlace.TheVariants.{WeakField};
ghost use Rattle.weak_part_calls.specs.retiring_stores.Exchanging.{Stores};
ghost use Rattle.linked_queue.specs.queue_law.Lessons.{TellsNothing};
ghost use Rattle.linked_queue.specs.queue_law.Nodes.{back_next};
ghost use Rattle.linked_queue.specs.UnlessRipe.{next_unless};
ghost use Rattle.double_link_queue.specs.Steps.{LinksBack};
ghost use Rattle.linked_queue.specs.queue_law.Views.{first_view};
ghost use Rattle.linked_queue.specs.Pushes.{HasLoad, SeesTail};
ghost use Rattle.double_link_queue.specs.Leaving.{LeavesBoth};
ghost use Rattle.double_link_queue.specs.Pushes.{backed_in};

use linked_queue::{HasQueue, LinkBack, QueueLaw, UnlessRipe};
use weak_part_calls::{Domain, Seat, SlotId, Spent, Strong, Weak, WeakPlace, store_weak, weaken};

/// Puts a weak reference to the tail cell's node into the weak field of the seat's own.
pub(crate) fn link_back<S, P: HasQueue<S>>(
    domain: &Domain<P>,
    seat: &mut Seat<P>,
    last: &Strong,
    node: SlotId,
) -> Result<(), Spent>
    requires rest { IsAtRest domain.now seat.old }
    requires room { HasRoom seat.old.view.core }
    requires tail { SeesTail last.now.slot (seen_by P.seen seat.old) }
    requires load { HasLoad node (seen_by P.seen seat.old) }
    ensures events { IfOk result (λ done. LinksBack P.Kind.fits (as_part P.part domain.now)
        last.now.slot node (seen_by P.seen seat.old) (seen_by P.seen seat.new)) }
    ensures backed { IfOk result (λ done. (P.seen seat.new.view.client)
        ≡ backed_in last.now.slot (P.seen seat.old.view.client)) }
    ensures refused { OnErr result ((P.seen seat.new.view.client) ≡ (P.seen seat.old.view.client)) }
    ensures spent { IfErr result (λ spent. IsSpent seat.old.view.core) }
    ensures now_spent { OnErr result (IsSpent seat.new.view.core) }
    ensures adds { seat.new.view.core.adds ≤ seat.old.view.core.adds + 1 }
    ensures makes { seat.new.view.core.makes ≡ seat.old.view.core.makes }
    ensures leaves { LeavesBoth seat.old.view.core.owned seat.old.view.core.weaks
        (seen_by P.seen seat.old) (seen_by P.seen seat.new) }
    ensures beside_part { HasBeside P.with_seen first_view seat.old seat.new }
    ensures room { HasRoom seat.new.view.core }
    ensures rest { IsAtRest domain.now seat.new }
{
    let back = weaken::<QueueLaw, S, P>(domain, seat, last)?;
    set_back(domain, seat, node, back);
    Ok(())
}

/// Puts the weak reference there.
fn set_back<S, P: HasQueue<S>>(domain: &Domain<P>, seat: &mut Seat<P>, node: SlotId, back: Weak)
    requires rest { IsAtRest domain.now seat.old }
    requires room { HasRoom seat.old.view.core }
    requires load { HasLoad node (seen_by P.seen seat.old) }
    requires owned { 0 < times back.slot seat.old.view.core.weaks }
    ensures events { Stores P.Kind.fits (as_part P.part domain.now) (next_unless back_next)
        TellsNothing (WeakField node) (Some back.slot) (seen_by P.seen seat.old) (seen_by P.seen seat.new) }
    ensures backed { (P.seen seat.new.view.client)
        ≡ backed_in back.slot (P.seen seat.old.view.client) }
    ensures adds { seat.new.view.core.adds ≡ seat.old.view.core.adds }
    ensures makes { seat.new.view.core.makes ≡ seat.old.view.core.makes }
    ensures leaves { LeavesBoth seat.old.view.core.owned
        (without back.slot seat.old.view.core.weaks)
        (seen_by P.seen seat.old) (seen_by P.seen seat.new) }
    ensures beside_part { HasBeside P.with_seen first_view seat.old seat.new }
    ensures room { HasRoom seat.new.view.core }
    ensures rest { IsAtRest domain.now seat.new }
{
    store_weak::<QueueLaw, S, P, _>(
        domain,
        seat,
        WeakPlace::Field(node),
        Some(back),
        UnlessRipe { deed: LinkBack },
    );
}
