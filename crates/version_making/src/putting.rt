//! Two nodes over three subtrees, and three over four.
ghost use Rattle.std.specs.Prelude.{◌≡◌, ◌≤◌, ◌+◌, IfErr, IfOk, Some};
ghost use Rattle.map_law.specs.plain_state.Lists.{times};
ghost use Rattle.map_law.specs.plain_state.declared.slot.SlotId.{SlotId};
ghost use Rattle.map_law.specs.Patterns.{Pattern};
ghost use Rattle.version_making.specs.Building.{IsWhy, put_over};
ghost use Rattle.version_making.specs.Keeping.{IsReadyFor, Keeps, of_answer, of_both, of_handle};
ghost use Rattle.version_making.specs.Standing.{IsSolid, IsTree, Stands};

use crate::building::put_together;
use crate::giving::give_up;
use map_protocol::MapLaw;
use slot_store::{Domain, MakeError, Seat, Strong};

/// A key and its value.
#[derive(Clone, Copy, Debug, Drop)]
pub(crate) struct Item {
    pub key: u64,
    pub value: u64,
}

/// A node over one that is made first, over the first two subtrees, and the third one.
pub(crate) fn put_left(
    domain: &Domain<MapLaw>,
    seat: &mut Seat<MapLaw>,
    low: Item,
    first: Option<Strong>,
    second: Option<Strong>,
    high: Item,
    third: Option<Strong>,
) -> Result<Strong, MakeError>
    requires ready { IsReadyFor domain.now seat.old }
    requires owned { (x : SlotId) → of_both first second x + of_handle third x
        ≤ times x seat.old.view.core.owned }
    requires trees { IsTree first seat.old × IsTree second seat.old × IsTree third seat.old }
    ensures put { IfOk result (λ node. (l m r : Pattern) → Stands first l seat.old
        → Stands second m seat.old → Stands third r seat.old → Stands (Some node)
        (put_over high.key high.value (put_over low.key low.value l m) r) seat.new) }
    ensures keeps { Keeps 2 2 (λ x. of_both first second x + of_handle third x)
        (of_answer result) seat.old seat.new }
    ensures why { IfErr result (λ why. IsWhy domain.now why seat.old seat.new) }
    ensures ready { IsReadyFor domain.now seat.new }
{
    match put_together(domain, seat, low.key, low.value, first, second) {
        Ok(lower) => put_together(domain, seat, high.key, high.value, Some(lower), third),
        Err(error) => {
            give_up(domain, seat, third);
            Err(error)
        }
    }
}

/// A node over the first subtree, and one that is made before it over the other two.
pub(crate) fn put_right(
    domain: &Domain<MapLaw>,
    seat: &mut Seat<MapLaw>,
    high: Item,
    first: Option<Strong>,
    low: Item,
    second: Option<Strong>,
    third: Option<Strong>,
) -> Result<Strong, MakeError>
    requires ready { IsReadyFor domain.now seat.old }
    requires owned { (x : SlotId) → of_handle first x + of_both second third x
        ≤ times x seat.old.view.core.owned }
    requires trees { IsTree first seat.old × IsTree second seat.old × IsTree third seat.old }
    ensures put { IfOk result (λ node. (l m r : Pattern) → Stands first l seat.old
        → Stands second m seat.old → Stands third r seat.old → Stands (Some node)
        (put_over high.key high.value l (put_over low.key low.value m r)) seat.new) }
    ensures keeps { Keeps 2 2 (λ x. of_handle first x + of_both second third x)
        (of_answer result) seat.old seat.new }
    ensures why { IfErr result (λ why. IsWhy domain.now why seat.old seat.new) }
    ensures ready { IsReadyFor domain.now seat.new }
{
    match put_together(domain, seat, low.key, low.value, second, third) {
        Ok(lower) => put_together(domain, seat, high.key, high.value, first, Some(lower)),
        Err(error) => {
            give_up(domain, seat, first);
            Err(error)
        }
    }
}

/// A node over two that are made before it, each over two subtrees.
pub(crate) fn put_both(
    domain: &Domain<MapLaw>,
    seat: &mut Seat<MapLaw>,
    left: Item,
    first: Option<Strong>,
    second: Option<Strong>,
    right: Item,
    third: Option<Strong>,
    fourth: Option<Strong>,
    high: Item,
) -> Result<Strong, MakeError>
    requires ready { IsReadyFor domain.now seat.old }
    requires owned { (x : SlotId) → of_both first second x + of_both third fourth x
        ≤ times x seat.old.view.core.owned }
    requires trees { IsTree first seat.old × IsTree second seat.old × IsTree third seat.old
        × IsTree fourth seat.old }
    ensures put { IfOk result (λ node. (k l m n : Pattern) → Stands first k seat.old
        → Stands second l seat.old → Stands third m seat.old → Stands fourth n seat.old
        → Stands (Some node) (put_over high.key high.value (put_over left.key left.value k l)
        (put_over right.key right.value m n)) seat.new) }
    ensures keeps { Keeps 3 3 (λ x. of_both first second x + of_both third fourth x)
        (of_answer result) seat.old seat.new }
    ensures why { IfErr result (λ why. IsWhy domain.now why seat.old seat.new) }
    ensures ready { IsReadyFor domain.now seat.new }
{
    match put_together(domain, seat, left.key, left.value, first, second) {
        Ok(lower) => put_right(domain, seat, high, Some(lower), right, third, fourth),
        Err(error) => {
            give_up(domain, seat, third);
            give_up(domain, seat, fourth);
            Err(error)
        }
    }
}
