//! The least pair of a subtree is taken out of it.
ghost use Rattle.std.specs.Prelude.{◌≡◌, ◌+◌, ◌*◌, ◌<◌, IfErr, IfOk, Some};
ghost use Rattle.map_law.specs.plain_state.Lists.{times};
ghost use Rattle.version_making.specs.Keeping.{IsReadyFor, Keeps, of_slot};
ghost use Rattle.version_making.specs.Standing.{IsSolid};
ghost use Rattle.version_changes.specs.Changing.{IsLeast, IsRefusal};
ghost use Rattle.version_changes.specs.Keeping.{of_least};

use crate::mending::mend_left;
use crate::outcome::{ChangeError, Least};
use map_protocol::MapLaw;
use slot_store::{Domain, Seat, Strong};
use version_making::{Opened, give_up, take_apart};

/// The least pair of a node's subtree, which is taken over, and the subtree without it, balanced again. `TooLong` where
/// the way to it has more nodes than `levels`. Refused besides as `join` is. Given up where it is refused. At most 3
/// makes and 15 adds a level.
pub(crate) fn take_least(
    domain: &Domain<MapLaw>,
    seat: &mut Seat<MapLaw>,
    node: Strong,
    levels: u64,
) -> Result<Least, ChangeError>
    requires ready { IsReadyFor domain.now seat.old }
    requires owned { 0 < times node.slot seat.old.view.core.owned }
    requires solid { IsSolid node.slot seat.old }
    ensures least { IfOk result (λ least. IsLeast node least.key least.value least.rest
        seat.old seat.new) }
    ensures keeps { Keeps (levels * 3) (levels * 15) (of_slot node.slot) (of_least result)
        seat.old seat.new }
    ensures why { IfErr result (λ why. IsRefusal domain.now why (Some node) levels
        seat.old seat.new) }
    ensures ready { IsReadyFor domain.now seat.new }
{
    if levels == 0 {
        give_up(domain, seat, Some(node));
        return Err(ChangeError::TooLong);
    }
    let Opened {
        key,
        value,
        left,
        right,
        ..
    } = take_apart(domain, seat, node)?;
    let Some(first) = left else {
        return Ok(Least {
            key,
            value,
            rest: right,
        });
    };
    match take_least(domain, seat, first, levels - 1) {
        Ok(least) => {
            let rest = mend_left(domain, seat, key, value, least.rest, right)?;
            Ok(Least {
                key: least.key,
                value: least.value,
                rest: Some(rest),
            })
        }
        Err(error) => {
            give_up(domain, seat, right);
            Err(error)
        }
    }
}
