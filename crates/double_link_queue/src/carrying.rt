//! A node that carries an item.
ghost use Rattle.std.specs.Prelude.{◌≡◌, ◌<◌, Some};
ghost use Rattle.weak_part_calls.specs.plain_state.declared.act.EventPlace.TheVariants.{Field};
ghost use Rattle.weak_part_calls.specs.plain_state.Lists.{times};
ghost use Rattle.weak_part_calls.specs.core_events.Steps.{HasRoom};
ghost use Rattle.weak_part_calls.specs.core_events.Views.{without};
ghost use Rattle.weak_part_calls.specs.control_word.Resting.{IsAtRest};
ghost use Rattle.weak_part_calls.specs.retiring_stores.Exchanging.{Stores};
ghost use Rattle.linked_queue.specs.queue_law.Lessons.{TellsNothing};
ghost use Rattle.linked_queue.specs.queue_law.Nodes.{carry_next};
ghost use Rattle.linked_queue.specs.queue_law.Pushes.{carried_item};
ghost use Rattle.weak_part_calls.specs.part_calls.Parts.{HasBeside, as_part, seen_by};
ghost use Rattle.linked_queue.specs.queue_law.Views.{first_view};
ghost use Rattle.linked_queue.specs.Leaving.{Leaves};
ghost use Rattle.linked_queue.specs.Nodes.{HasNode};
ghost use Rattle.linked_queue.specs.Pops.{item_in};
ghost use Rattle.linked_queue.specs.Pushes.{HasLoad};
ghost use Rattle.linked_queue.specs.Queues.{deeds_in};
ghost use Rattle.linked_queue.specs.UnlessRipe.{next_unless};

use linked_queue::{CarryItem, HasQueue, QueueLaw, UnlessRipe};
use weak_part_calls::{Domain, Place, Seat, SlotId, Strong, store};

/// Puts a reference to the item into field 1 of a node of the seat's own.
pub(crate) fn carry<S, P: HasQueue<S>>(
    domain: &Domain<P>,
    seat: &mut Seat<P>,
    node: SlotId,
    item: Strong,
)
    requires rest { IsAtRest domain.now seat.old }
    requires room { HasRoom seat.old.view.core }
    requires node { HasNode node (seen_by P.seen seat.old) }
    requires item { 0 < times item.slot seat.old.view.core.owned }
    requires left { 0 < times node (without item.slot seat.old.view.core.owned) }
    ensures stores { Stores P.Kind.fits (as_part P.part domain.now) (next_unless carry_next)
        TellsNothing
        (Field node 1) (Some item.slot) (seen_by P.seen seat.old) (seen_by P.seen seat.new) }
    ensures load { HasLoad node (seen_by P.seen seat.new) }
    ensures carried { carried_item (P.seen seat.new.view.client)
        ≡ item_in (seen_by P.seen seat.old) item.slot }
    ensures deeds { deeds_in (P.seen seat.new.view.client)
        ≡ deeds_in (P.seen seat.old.view.client) }
    ensures makes { seat.new.view.core.makes ≡ seat.old.view.core.makes }
    ensures leaves { Leaves (without item.slot seat.old.view.core.owned) (seen_by P.seen seat.old)
        (seen_by P.seen seat.new) }
    ensures beside_part { HasBeside P.with_seen first_view seat.old seat.new }
    ensures room { HasRoom seat.new.view.core }
    ensures rest { IsAtRest domain.now seat.new }
{
    store::<QueueLaw, S, P, _>(
        domain,
        seat,
        Place::Field(node, 1),
        Some(item),
        UnlessRipe { deed: CarryItem },
    );
}
