//! A node is opened, and the reference to it given up.
ghost use Rattle.std.specs.Prelude.{◌≡◌, ◌<◌, IfErr, IfOk, OnErr};
ghost use Rattle.map_law.specs.plain_state.Lists.{times};
ghost use Rattle.version_making.specs.Building.{IsWhy};
ghost use Rattle.version_making.specs.Keeping.{IsReadyFor, Keeps, none, of_both, of_slot};
ghost use Rattle.version_making.specs.Opening.{IsTaken};
ghost use Rattle.version_making.specs.Standing.{IsSolid};

use crate::giving::give_up;
use crate::opening::{Opened, open_node};
use map_protocol::MapLaw;
use slot_store::{Domain, MakeError, Seat, Strong};

/// Opens a node as `open_node` does, and gives up the reference to it, also where it is refused.
pub fn take_apart(
    domain: &Domain<MapLaw>,
    seat: &mut Seat<MapLaw>,
    node: Strong,
) -> Result<Opened, MakeError>
    requires ready { IsReadyFor domain.now seat.old }
    requires owned { 0 < times node.slot seat.old.view.core.owned }
    requires solid { IsSolid node.slot seat.old }
    ensures taken { IfOk result (λ opened. IsTaken node opened.key opened.value opened.height
        opened.left opened.right seat.old seat.new) }
    ensures keeps { IfOk result (λ opened. Keeps 0 2 (of_slot node.slot)
        (of_both opened.left opened.right) seat.old seat.new) }
    ensures refused { OnErr result (Keeps 0 2 (of_slot node.slot) none seat.old seat.new) }
    ensures why { IfErr result (λ why. IsWhy domain.now why seat.old seat.new) }
    ensures ready { IsReadyFor domain.now seat.new }
{
    match open_node(domain, seat, &node) {
        Ok(opened) => {
            give_up(domain, seat, Some(node));
            Ok(opened)
        }
        Err(_spent) => {
            give_up(domain, seat, Some(node));
            Err(MakeError::AddsSpent)
        }
    }
}
