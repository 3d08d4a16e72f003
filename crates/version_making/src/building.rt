//! A node over two subtrees.
ghost use Rattle.std.specs.Prelude.{◌≡◌, ◌≢◌, ◌+◌, ◌-◌, ◌<◌, ◌≤◌, ◌^◌, ℕ, suc, max, IfErr, IfOk, Some};
ghost use Rattle.map_law.specs.plain_state.Lists.{times};
ghost use Rattle.map_law.specs.plain_state.declared.slot.SlotId.{SlotId};
ghost use Rattle.map_law.specs.declared.view.Raw.{Raw};
ghost use Rattle.map_law.specs.Making.{with_kid};
ghost use Rattle.map_law.specs.Nodes.{IsNode, words};
ghost use Rattle.map_law.specs.Patterns.{Pattern, Spells, branch};
ghost use Rattle.slot_store.specs.domain_rule.Views.{object_in};
ghost use Rattle.slot_store.specs.counted_handles.Handles.{Handle};
ghost use Rattle.version_making.specs.Building.{IsMaking, IsPut, IsWhy, Makes, capped, raw_of, with_tree};
ghost use Rattle.version_making.specs.Keeping.{IsReadyFor, Keeps, OwnsBoth, none, of_answer, of_both, of_handle, of_slot};
ghost use Rattle.version_making.specs.Standing.{IsSolid, IsTree, kid_by, node_in};

use crate::deeds::{MakeNew, OpenSide, SetKid};
use crate::giving::{give_up, height_at};
use crate::node_words::node_words;
use atomic_shared::{Place, store};
use map_protocol::MapLaw;
use slot_store::{Domain, EventPlace, MakeError, Seat, SlotId, Strong, make};

/// Makes a node with these words and null fields. Refused with the causes of `make`.
fn make_node(
    domain: &Domain<MapLaw>,
    seat: &mut Seat<MapLaw>,
    payload: &[u64; 16],
) -> Result<Strong, MakeError>
    requires ready { IsReadyFor domain.now seat.old }
    requires node { (k : ℕ) × (v : ℕ) × (h : ℕ) × (payload.now ≡ words k v h) }
    ensures making { IfOk result (λ node. IsMaking (raw_of node.slot seat.new) seat.new) }
    ensures payload { IfOk result (λ node. (object_in seat.new.view node.slot).payload
        ≡ payload.now) }
    ensures apart { IfOk result (λ node. (x : SlotId)
        → 0 < times x seat.old.view.core.owned → x ≢ node.slot) }
    ensures keeps { Keeps 1 1 none (of_answer result) seat.old seat.new }
    ensures why { IfErr result (λ why. IsWhy domain.now why seat.old seat.new) }
    ensures ready { IsReadyFor domain.now seat.new }
{
    make(domain, seat, payload, MakeNew)
}

/// A field of the node that was made last gets a node. One step, and a collect where one is due then.
fn set_kid(domain: &Domain<MapLaw>, seat: &mut Seat<MapLaw>, node: SlotId, side: u32, kid: Strong)
    requires ready { IsReadyFor domain.now seat.old }
    requires makes { Makes node seat.old }
    requires side { side < 2 }
    requires owned { 0 < times kid.slot seat.old.view.core.owned }
    requires solid { IsSolid kid.slot seat.old }
    requires apart { node ≢ kid.slot }
    ensures making { (e : Raw) → e.slot ≡ node → IsMaking e seat.old
        → IsMaking (with_kid side (Some (node_in kid.slot seat.old)) e) seat.new }
    ensures keeps { Keeps 0 0 (of_slot kid.slot) none seat.old seat.new }
    ensures ready { IsReadyFor domain.now seat.new }
{
    let deed = SetKid {
        slot: node,
        side,
        kid: kid.slot(),
    };
    store(domain, seat, Place::Field(node, side), Some(kid), deed);
}

/// The same where there is a node.
fn set_if(
    domain: &Domain<MapLaw>,
    seat: &mut Seat<MapLaw>,
    node: SlotId,
    side: u32,
    kid: Option<Strong>,
)
    requires ready { IsReadyFor domain.now seat.old }
    requires makes { Makes node seat.old }
    requires side { side < 2 }
    requires owned { (x : SlotId) → of_handle kid x ≤ times x seat.old.view.core.owned }
    requires tree { IsTree kid seat.old }
    requires apart { (handle : Handle) → kid ≡ Some handle → node ≢ handle.slot }
    ensures making { (e : Raw) → e.slot ≡ node → IsMaking e seat.old
        → IsMaking (with_tree side (kid_by kid seat.old) e) seat.new }
    ensures keeps { Keeps 0 0 (of_handle kid) none seat.old seat.new }
    ensures ready { IsReadyFor domain.now seat.new }
{
    if let Some(kid) = kid {
        set_kid(domain, seat, node, side, kid);
    }
}

/// A look at the node that was made last, by which nobody changes it any more: from then on the seat's notes tell what
/// its fields hold, as of any node that stands in a tree. One step.
fn end_making(domain: &Domain<MapLaw>, seat: &mut Seat<MapLaw>, node: SlotId)
    requires ready { IsReadyFor domain.now seat.old }
    requires makes { Makes node seat.old }
    requires node { IsNode (object_in seat.old.view node).payload }
    ensures spells { (e : Raw) → e.slot ≡ node → IsMaking e seat.old → (l r : Pattern)
        → Spells seat.old.view.client e.first l → Spells seat.old.view.client e.second r
        → (key value height : ℕ) → e.payload ≡ words key value height
        → Spells seat.new.view.client (Some (node_in node seat.new))
        (branch key value height l r) }
    ensures solid { IsSolid node seat.new }
    ensures keeps { Keeps 0 0 none none seat.old seat.new }
    ensures ready { IsReadyFor domain.now seat.new }
{
    domain.look(
        seat,
        EventPlace::Field(node, 0),
        OpenSide {
            slot: node,
            side: 0,
        },
    );
}

/// Makes a node over two subtrees, which it takes over. It is as high as the higher one and one level more, at most
/// 2^64 - 1. Refused
/// with the causes of `make`, and then both are given up. One make and one add.
pub fn put_together(
    domain: &Domain<MapLaw>,
    seat: &mut Seat<MapLaw>,
    key: u64,
    value: u64,
    left: Option<Strong>,
    right: Option<Strong>,
) -> Result<Strong, MakeError>
    requires ready { IsReadyFor domain.now seat.old }
    requires owned { OwnsBoth left right seat.old }
    requires trees { IsTree left seat.old × IsTree right seat.old }
    ensures put { IfOk result (λ node. IsPut node key value left right seat.old seat.new) }
    ensures solid { IfOk result (λ node. IsSolid node.slot seat.new) }
    ensures keeps { Keeps 1 1 (of_both left right) (of_answer result) seat.old seat.new }
    ensures why { IfErr result (λ why. IsWhy domain.now why seat.old seat.new) }
    ensures ready { IsReadyFor domain.now seat.new }
{
    let height = over(
        height_at(domain, seat, &left),
        height_at(domain, seat, &right),
    );
    let made = make_node(domain, seat, &node_words(key, value, height));
    match made {
        Ok(node) => {
            let slot = node.slot();
            set_if(domain, seat, slot, 0, left);
            set_if(domain, seat, slot, 1, right);
            end_making(domain, seat, slot);
            Ok(node)
        }
        Err(error) => {
            give_up(domain, seat, left);
            give_up(domain, seat, right);
            Err(error)
        }
    }
}

/// The height of a node over subtrees of these heights, at most 2^64 - 1.
fn over(left: u64, right: u64) -> u64
    ensures { result ≡ capped (suc (max left right)) }
{
    let high = if left < right { right } else { left };
    if high == u64::MAX { high } else { high + 1 }
}
