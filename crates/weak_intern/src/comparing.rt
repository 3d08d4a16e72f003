//! Whether a head has a text.
ghost use Rattle.std.specs.Prelude.{◌≡◌, ◌↔◌, length, true};
ghost use Rattle.atomic_weak.specs.core_events.Steps.{HasRoom};
ghost use Rattle.atomic_weak.specs.core_events.Views.{Holds};
ghost use Rattle.atomic_weak.specs.control_word.Moves.{KnowsStill};
ghost use Rattle.atomic_weak.specs.control_word.Resting.{IsAtRest};
ghost use Rattle.atomic_weak.specs.domain_rule.Views.{object_in};
ghost use Rattle.record_making.specs.directory_calls.Steps.{Leaves};
ghost use Rattle.weak_intern.specs.Sighting.{Compares};

use atomic_weak::{Domain, Protocol, Seat, SlotId};
use record_making::read;

/// Whether the object in a slot that the seat holds has this payload. At most 16 steps.
pub fn is_payload<P: Protocol>(
    domain: &Domain<P>,
    seat: &mut Seat<P>,
    slot: SlotId,
    payload: &[u64; 16],
) -> bool
    requires rest { IsAtRest domain.now seat.old }
    requires room { HasRoom seat.old.view.core }
    requires holds { Holds seat.old.view.core slot }
    ensures same { (result ≡ true) ↔ ((object_in seat.old.view slot).payload ≡ payload.now) }
    ensures compares { Compares slot payload.now result seat.old.view.core seat.new.view.core }
    ensures objects { KnowsStill seat.old.view.core seat.old seat.new }
    ensures leaves { Leaves seat.old.view.core.owned seat.old.view.core.weaks seat.old seat.new }
    ensures client { seat.new.view.client ≡ seat.old.view.client }
    ensures makes { seat.new.view.core.makes ≡ seat.old.view.core.makes }
    ensures room { HasRoom seat.new.view.core }
    ensures rest { IsAtRest domain.now seat.new }
{
    for word in 0..16u32 {
        if read(domain, seat, slot, word) != payload[word as usize] {
            return false;
        }
    }
    true
}
