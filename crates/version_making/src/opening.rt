//! A node is opened: its words are read, and references to its subtrees taken.
ghost use Rattle.std.specs.Prelude.{◌≡◌, ◌<◌, IfOk, OnErr, slice_index};
ghost use Rattle.map_law.specs.plain_state.Lists.{times};
ghost use Rattle.slot_store.specs.control_word.Resting.{IsSpent};
ghost use Rattle.slot_store.specs.domain_rule.Views.{object_in};
ghost use Rattle.version_making.specs.Keeping.{IsReadyFor, Keeps, none, of_both};
ghost use Rattle.version_making.specs.Opening.{IsOpened, IsSide, of_load};
ghost use Rattle.version_making.specs.Standing.{IsSolid};

use crate::deeds::OpenSide;
use crate::giving::give_up;
use atomic_shared::Spent;
use map_protocol::MapLaw;
use protected_loads::{Kind, Still};
use slot_store::{Domain, EventPlace, Outcome, Seat, SlotId, Strong, read};

/// What a node keeps, and references to its subtrees.
#[derive(Debug, Drop)]
pub struct Opened {
    /// The key.
    pub key: u64,
    /// Its value.
    pub value: u64,
    /// The height that the node keeps.
    pub height: u64,
    /// The left subtree; none where it is null.
    pub left: Option<Strong>,
    /// The right one.
    pub right: Option<Strong>,
}

/// Opens a node that the seat owns and that nobody changes. Refused where the seat would use an add and has none left,
/// and then what was loaded is given up. One add for each subtree that isn't null.
pub fn open_node(
    domain: &Domain<MapLaw>,
    seat: &mut Seat<MapLaw>,
    node: &Strong,
) -> Result<Opened, Spent>
    requires ready { IsReadyFor domain.now seat.old }
    requires owned { 0 < times node.now.slot seat.old.view.core.owned }
    requires solid { IsSolid node.now.slot seat.old }
    ensures opened { IfOk result (λ opened. IsOpened node.now opened.key opened.value
        opened.height opened.left opened.right seat.old seat.new) }
    ensures keeps { IfOk result (λ opened. Keeps 0 2 none (of_both opened.left opened.right)
        seat.old seat.new) }
    ensures refused { OnErr result (Keeps 0 2 none none seat.old seat.new) }
    ensures spent { OnErr result (IsSpent seat.new.view.core) }
    ensures ready { IsReadyFor domain.now seat.new }
{
    let slot = node.slot();
    let left = load_side(domain, seat, slot, 0)?;
    match load_side(domain, seat, slot, 1) {
        Ok(right) => Ok(Opened {
            key: word_of(domain, seat, slot, 1),
            value: word_of(domain, seat, slot, 2),
            height: word_of(domain, seat, slot, 3),
            left,
            right,
        }),
        Err(spent) => {
            give_up(domain, seat, left);
            Err(spent)
        }
    }
}

/// A word of a node that the seat owns. One step.
fn word_of(domain: &Domain<MapLaw>, seat: &mut Seat<MapLaw>, slot: SlotId, word: u32) -> u64
    requires ready { IsReadyFor domain.now seat.old }
    requires owned { 0 < times slot seat.old.view.core.owned }
    requires within { word < 16 }
    ensures word { result ≡ slice_index (object_in seat.old.view slot).payload word }
    ensures keeps { Keeps 0 0 none none seat.old seat.new }
    ensures ready { IsReadyFor domain.now seat.new }
{
    read(domain, seat, slot, word)
}

/// A reference to what a field of a node holds, which nobody changes: what a look finds there the check finds too.
/// Refused where the seat would use an add and has none left. At most five steps, and one add where it answers a node.
fn load_side(
    domain: &Domain<MapLaw>,
    seat: &mut Seat<MapLaw>,
    node: SlotId,
    side: u32,
) -> Result<Option<Strong>, Spent>
    requires ready { IsReadyFor domain.now seat.old }
    requires owned { 0 < times node seat.old.view.core.owned }
    requires solid { IsSolid node seat.old }
    requires side { side < 2 }
    ensures side { IfOk result (λ kid. IsSide node side kid seat.new) }
    ensures keeps { Keeps 0 1 none (of_load result) seat.old seat.new }
    ensures spent { OnErr result (IsSpent seat.new.view.core) }
    ensures ready { IsReadyFor domain.now seat.new }
{
    let place = EventPlace::Field(node, side);
    let deed = OpenSide { slot: node, side };
    let Outcome::Found(found) = domain.look(seat, place, deed) else {
        unreachable!()
    };
    let Some(kid) = found else {
        return Ok(None);
    };
    if domain.adds_left(seat) == 0 {
        return Err(Spent);
    }
    domain.announce(seat, 0, Kind::Strong, kid);
    domain.check(seat, 0, place, deed);
    domain.add(seat, kid, Still);
    domain.release(seat, 0);
    Ok(Some(Strong::of(kid)))
}
