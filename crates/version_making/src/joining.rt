//! Two subtrees and a pair between them as one balanced tree.
ghost use Rattle.std.specs.Prelude.{ℕ, ◌≡◌, ◌≤◌, ◌+◌, suc, nat_lt, IfErr, IfOk, Some};
ghost use Rattle.map_law.specs.plain_state.Lists.{times};
ghost use Rattle.map_law.specs.plain_state.declared.slot.SlotId.{SlotId};
ghost use Rattle.map_law.specs.Patterns.{Pattern, branch};
ghost use Rattle.map_law.specs.Plans.{tilt_left, tilt_right};
ghost use Rattle.version_making.specs.Building.{IsWhy};
ghost use Rattle.version_making.specs.Joining.{IsJoined, IsLow, IsTilted, IsTurned};
ghost use Rattle.version_making.specs.Keeping.{IsReadyFor, Keeps, OwnsBoth, of_answer, of_both, of_handle, of_slot};
ghost use Rattle.version_making.specs.Standing.{IsSolid, IsTree, Stands};

use crate::building::put_together;
use crate::giving::{give_up, height_at};
use crate::putting::{Item, put_both, put_left, put_right};
use crate::taking_apart::take_apart;
use map_protocol::MapLaw;
use slot_store::{Domain, MakeError, Seat, Strong};

/// A node that is opened comes up over two that are made, each over one of its subtrees and one beside it.
fn turn(
    domain: &Domain<MapLaw>,
    seat: &mut Seat<MapLaw>,
    left: Item,
    first: Option<Strong>,
    mid: Strong,
    right: Item,
    last: Option<Strong>,
) -> Result<Strong, MakeError>
    requires ready { IsReadyFor domain.now seat.old }
    requires owned { (x : SlotId) → of_slot mid.slot x + of_both first last x
        ≤ times x seat.old.view.core.owned }
    requires trees { IsTree first seat.old × IsSolid mid.slot seat.old × IsTree last seat.old }
    ensures turned { IfOk result (λ node. (a m d : Pattern) → Stands first a seat.old
        → Stands (Some mid) m seat.old → Stands last d seat.old
        → IsTurned node mid left.key left.value right.key right.value seat.old seat.new a m d) }
    ensures keeps { Keeps 3 5 (λ x. of_slot mid.slot x + of_both first last x)
        (of_answer result) seat.old seat.new }
    ensures why { IfErr result (λ why. IsWhy domain.now why seat.old seat.new) }
    ensures ready { IsReadyFor domain.now seat.new }
{
    match take_apart(domain, seat, mid) {
        Ok(opened) => {
            let high = Item {
                key: opened.key,
                value: opened.value,
            };
            put_both(
                domain,
                seat,
                left,
                first,
                opened.left,
                right,
                opened.right,
                last,
                high,
            )
        }
        Err(error) => {
            give_up(domain, seat, first);
            give_up(domain, seat, last);
            Err(error)
        }
    }
}

/// Two nodes over the subtrees of a left one that was opened, `near` and `far`, and one to its right: the opened pair
/// comes up, or that of `far` where this is the higher one.
fn lift_left(
    domain: &Domain<MapLaw>,
    seat: &mut Seat<MapLaw>,
    item: Item,
    top: Item,
    near: Option<Strong>,
    far: Option<Strong>,
    right: Option<Strong>,
) -> Result<Strong, MakeError>
    requires ready { IsReadyFor domain.now seat.old }
    requires owned { (x : SlotId) → of_both near far x + of_handle right x
        ≤ times x seat.old.view.core.owned }
    requires trees { IsTree near seat.old × IsTree far seat.old × IsTree right seat.old }
    ensures tilted { IfOk result (λ node. (h : ℕ) (a m d : Pattern) → Stands near a seat.old
        → Stands far m seat.old → Stands right d seat.old → IsTilted
        (λ p. tilt_left item.key item.value (branch top.key top.value h a p) d)
        (IsLow a × IsLow d) node far seat.old seat.new m) }
    ensures keeps { Keeps 3 5 (λ x. of_both near far x + of_handle right x)
        (of_answer result) seat.old seat.new }
    ensures why { IfErr result (λ why. IsWhy domain.now why seat.old seat.new) }
    ensures ready { IsReadyFor domain.now seat.new }
{
    let outer = height_at(domain, seat, &near);
    let inner = height_at(domain, seat, &far);
    if inner <= outer {
        return put_right(domain, seat, top, near, item, far, right);
    }
    let Some(mid) = far else { unreachable!() };
    turn(domain, seat, top, near, mid, item, right)
}

/// The same from a right subtree that was opened, and one to its left.
fn lift_right(
    domain: &Domain<MapLaw>,
    seat: &mut Seat<MapLaw>,
    item: Item,
    top: Item,
    near: Option<Strong>,
    far: Option<Strong>,
    left: Option<Strong>,
) -> Result<Strong, MakeError>
    requires ready { IsReadyFor domain.now seat.old }
    requires owned { (x : SlotId) → of_both near far x + of_handle left x
        ≤ times x seat.old.view.core.owned }
    requires trees { IsTree near seat.old × IsTree far seat.old × IsTree left seat.old }
    ensures tilted { IfOk result (λ node. (h : ℕ) (a m d : Pattern) → Stands near a seat.old
        → Stands far m seat.old → Stands left d seat.old → IsTilted
        (λ p. tilt_right item.key item.value d (branch top.key top.value h p a))
        (IsLow a × IsLow d) node far seat.old seat.new m) }
    ensures keeps { Keeps 3 5 (λ x. of_both near far x + of_handle left x)
        (of_answer result) seat.old seat.new }
    ensures why { IfErr result (λ why. IsWhy domain.now why seat.old seat.new) }
    ensures ready { IsReadyFor domain.now seat.new }
{
    let outer = height_at(domain, seat, &near);
    let inner = height_at(domain, seat, &far);
    if inner <= outer {
        return put_left(domain, seat, item, left, far, top, near);
    }
    let Some(mid) = far else { unreachable!() };
    turn(domain, seat, item, left, mid, top, near)
}

/// A left subtree that is higher by 2 or more is opened, and its parts put over the other one.
fn lean_left(
    domain: &Domain<MapLaw>,
    seat: &mut Seat<MapLaw>,
    item: Item,
    left: Strong,
    right: Option<Strong>,
) -> Result<Strong, MakeError>
    requires ready { IsReadyFor domain.now seat.old }
    requires owned { (x : SlotId) → of_slot left.slot x + of_handle right x
        ≤ times x seat.old.view.core.owned }
    requires trees { IsSolid left.slot seat.old × IsTree right seat.old }
    ensures tilted { IfOk result (λ node. (l d : Pattern) → Stands (Some left) l seat.old
        → Stands right d seat.old → IsTilted (λ p. tilt_left item.key item.value p d)
        (IsLow d) node (Some left) seat.old seat.new l) }
    ensures keeps { Keeps 3 7 (λ x. of_slot left.slot x + of_handle right x)
        (of_answer result) seat.old seat.new }
    ensures why { IfErr result (λ why. IsWhy domain.now why seat.old seat.new) }
    ensures ready { IsReadyFor domain.now seat.new }
{
    match take_apart(domain, seat, left) {
        Ok(opened) => {
            let top = Item {
                key: opened.key,
                value: opened.value,
            };
            lift_left(domain, seat, item, top, opened.left, opened.right, right)
        }
        Err(error) => {
            give_up(domain, seat, right);
            Err(error)
        }
    }
}

/// The same with a right subtree that is higher.
fn lean_right(
    domain: &Domain<MapLaw>,
    seat: &mut Seat<MapLaw>,
    item: Item,
    left: Option<Strong>,
    right: Strong,
) -> Result<Strong, MakeError>
    requires ready { IsReadyFor domain.now seat.old }
    requires owned { (x : SlotId) → of_slot right.slot x + of_handle left x
        ≤ times x seat.old.view.core.owned }
    requires trees { IsSolid right.slot seat.old × IsTree left seat.old }
    ensures tilted { IfOk result (λ node. (r d : Pattern) → Stands (Some right) r seat.old
        → Stands left d seat.old → IsTilted (λ p. tilt_right item.key item.value d p)
        (IsLow d) node (Some right) seat.old seat.new r) }
    ensures keeps { Keeps 3 7 (λ x. of_slot right.slot x + of_handle left x)
        (of_answer result) seat.old seat.new }
    ensures why { IfErr result (λ why. IsWhy domain.now why seat.old seat.new) }
    ensures ready { IsReadyFor domain.now seat.new }
{
    match take_apart(domain, seat, right) {
        Ok(opened) => {
            let top = Item {
                key: opened.key,
                value: opened.value,
            };
            lift_right(domain, seat, item, top, opened.right, opened.left, left)
        }
        Err(error) => {
            give_up(domain, seat, left);
            Err(error)
        }
    }
}

/// Two subtrees and a pair between them as one tree, which takes both over. Where one of them is higher by 2 or more it
/// is opened, and its root comes up, or the root of its inner subtree where that is the higher one. Refused with the
/// causes of `make`, and where a subtree is opened with `AddsSpent` where no add is left for it; both are given up
/// then.
/// At most 3 makes and 7 adds.
pub fn join(
    domain: &Domain<MapLaw>,
    seat: &mut Seat<MapLaw>,
    key: u64,
    value: u64,
    left: Option<Strong>,
    right: Option<Strong>,
) -> Result<Strong, MakeError>
    requires ready { IsReadyFor domain.now seat.old }
    requires owned { OwnsBoth left right seat.old }
    requires trees { IsTree left seat.old × IsTree right seat.old }
    ensures joined { IfOk result (λ node. (l r : Pattern) → Stands left l seat.old
        → Stands right r seat.old
        → IsJoined node key value left right seat.old seat.new l r) }
    ensures keeps { Keeps 3 7 (of_both left right) (of_answer result) seat.old seat.new }
    ensures why { IfErr result (λ why. IsWhy domain.now why seat.old seat.new) }
    ensures ready { IsReadyFor domain.now seat.new }
{
    let high = height_at(domain, seat, &left);
    let low = height_at(domain, seat, &right);
    if outgrows(high, low) {
        let Some(node) = left else { unreachable!() };
        return lean_left(domain, seat, Item { key, value }, node, right);
    }
    if outgrows(low, high) {
        let Some(node) = right else { unreachable!() };
        return lean_right(domain, seat, Item { key, value }, left, node);
    }
    put_together(domain, seat, key, value, left, right)
}

/// Whether the first height is higher by 2 or more.
fn outgrows(high: u64, low: u64) -> bool
    ensures { result ≡ nat_lt (suc low) high }
{
    low < high && 1 < high - low
}
