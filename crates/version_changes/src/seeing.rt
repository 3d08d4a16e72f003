//! What a seat sees of a subtree before it is joined.
ghost use Rattle.std.specs.Prelude.{◌≡◌, ◌≤◌, ◌<◌, suc, nat_lt, IfErr, IfOk};
ghost use Rattle.map_law.specs.plain_state.Lists.{times};
ghost use Rattle.map_law.specs.plain_state.declared.slot.SlotId.{SlotId};
ghost use Rattle.version_making.specs.Building.{IsWhy, height_by};
ghost use Rattle.version_making.specs.Keeping.{IsReadyFor, Keeps, OwnsBoth, none, of_handle};
ghost use Rattle.version_making.specs.Standing.{IsSolid, IsTree};
ghost use Rattle.version_changes.specs.Showing.{IsRead, IsSeen};

use map_protocol::MapLaw;
use slot_store::{Domain, MakeError, Seat, Strong};
use version_making::{Opened, give_up, height_at, open_node, take_apart};

/// Sees the root of the subtree beside one that was changed, and the roots of its subtrees, if it is higher than the
/// changed one by 2 or more: a join may ask for them then. At most 6 adds.
pub(crate) fn see_beside(
    domain: &Domain<MapLaw>,
    seat: &mut Seat<MapLaw>,
    changed: &Option<Strong>,
    beside: &Option<Strong>,
) -> Result<(), MakeError>
    requires ready { IsReadyFor domain.now seat.old }
    requires owned { OwnsBoth changed.now beside.now seat.old }
    requires tree { IsTree beside.now seat.old }
    ensures seen { IfOk result (λ _. suc (height_by changed.now seat.old)
        < height_by beside.now seat.old → IsSeen beside.now seat.old seat.new) }
    ensures keeps { Keeps 0 6 none none seat.old seat.new }
    ensures why { IfErr result (λ why. IsWhy domain.now why seat.old seat.new) }
    ensures ready { IsReadyFor domain.now seat.new }
{
    let low = height_at(domain, seat, changed);
    let high = height_at(domain, seat, beside);
    match beside {
        Some(node) if outgrows(high, low) => see_top(domain, seat, node),
        _ => Ok(()),
    }
}

/// Whether the first height is higher by 2 or more.
fn outgrows(high: u64, low: u64) -> bool
    ensures { result ≡ nat_lt (suc low) high }
{
    low < high && 1 < high - low
}

/// Opens a node and its subtrees, so that the seat has noted what they hold, and keeps no reference. At most 6 adds.
fn see_top(domain: &Domain<MapLaw>, seat: &mut Seat<MapLaw>, node: &Strong) -> Result<(), MakeError>
    requires ready { IsReadyFor domain.now seat.old }
    requires owned { 0 < times node.now.slot seat.old.view.core.owned }
    requires solid { IsSolid node.now.slot seat.old }
    ensures seen { IfOk result (λ _. IsSeen (Some node.now) seat.old seat.new) }
    ensures keeps { Keeps 0 6 none none seat.old seat.new }
    ensures why { IfErr result (λ why. IsWhy domain.now why seat.old seat.new) }
    ensures ready { IsReadyFor domain.now seat.new }
{
    let Ok(Opened { left, right, .. }) = open_node(domain, seat, node) else {
        return Err(MakeError::AddsSpent);
    };
    if let Err(error) = see_root(domain, seat, left) {
        give_up(domain, seat, right);
        return Err(error);
    }
    see_root(domain, seat, right)
}

/// Opens the root of a subtree, if it isn't null, and gives up the reference to it. At most 2 adds.
fn see_root(
    domain: &Domain<MapLaw>,
    seat: &mut Seat<MapLaw>,
    tree: Option<Strong>,
) -> Result<(), MakeError>
    requires ready { IsReadyFor domain.now seat.old }
    requires owned { (x : SlotId) → of_handle tree x ≤ times x seat.old.view.core.owned }
    requires tree { IsTree tree seat.old }
    ensures read { IfOk result (λ _. IsRead tree seat.old seat.new) }
    ensures keeps { Keeps 0 2 (of_handle tree) none seat.old seat.new }
    ensures why { IfErr result (λ why. IsWhy domain.now why seat.old seat.new) }
    ensures ready { IsReadyFor domain.now seat.new }
{
    let Some(node) = tree else { return Ok(()) };
    let opened = take_apart(domain, seat, node)?;
    give_up(domain, seat, opened.left);
    give_up(domain, seat, opened.right);
    Ok(())
}
