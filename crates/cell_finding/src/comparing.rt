//! Whether an object has a payload.
ghost use Rattle.std.specs.Prelude.{◌≡◌, ◌≤◌, ◌↔◌, true, List, length};
ghost use Rattle.epoch_domain.specs.epoch_core.declared.view.EpochMove.{EpochMove};
ghost use Rattle.epoch_domain.specs.epoch_core.Views.{Holds};
ghost use Rattle.epoch_domain.specs.epoch_rule.Views.{object_in};
ghost use Rattle.epoch_refs.specs.Searching.{Goes};
ghost use Rattle.epoch_refs.specs.Walks.{IsAtRest};

use epoch_refs::{EpochDomain, EpochSeat, Protocol, SlotId, e_read};

/// Whether the object in a slot that the seat owns or its region has seen has this payload. At most 16 events: it stops
/// at the first word that differs.
pub fn is_payload<P: Protocol>(
    domain: &EpochDomain<P>,
    seat: &mut EpochSeat<P>,
    slot: SlotId,
    payload: &[u64; 16],
) -> bool
    requires rest { IsAtRest domain.now seat.old }
    requires held { Holds seat.old.view.core slot }
    ensures same { (result ≡ true) ↔ ((object_in seat.old.view slot).payload ≡ payload.now) }
    ensures goes { (moves : List EpochMove) × (length moves ≤ 16)
        × Goes P.Kind.fits domain.now moves seat.old.view.core seat.old seat.new }
    ensures rest { IsAtRest domain.now seat.new }
{
    for word in 0..16u32 {
        if e_read(domain, seat, slot, word) != payload[word as usize] {
            return false;
        }
    }
    true
}
