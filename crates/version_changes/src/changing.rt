//! One key of a subtree is changed.
ghost use Rattle.std.specs.Prelude.{◌≡◌, ◌≤◌, ◌<◌, ◌+◌, ◌*◌, IfErr, IfOk, None, Some};
ghost use Rattle.map_law.specs.plain_state.Lists.{times};
ghost use Rattle.map_law.specs.plain_state.declared.slot.SlotId.{SlotId};
ghost use Rattle.version_making.specs.Keeping.{IsReadyFor, Keeps, OwnsBoth, of_both, of_handle};
ghost use Rattle.version_making.specs.Standing.{IsTree};
ghost use Rattle.version_changes.specs.Changing.{IsChanged, IsChangedHere, IsRefusal};
ghost use Rattle.version_changes.specs.Keeping.{of_changed};

use crate::mending::{mend_left, mend_right};
use crate::outcome::{ChangeError, Changed};
use crate::putting::{change_here, change_null};
use map_protocol::MapLaw;
use map_trees::Change;
use slot_store::{Domain, Seat, Strong};
use version_making::{Opened, give_up, take_apart};

/// Changes one key of a subtree, which it takes over: a `Put` gives it this value, a `Bump` adds so much to its number,
/// which begins with 0 and stops at 2^64 - 1, and a `Take` makes it absent. It answers the new subtree, balanced again,
/// and what the key had. `TooLong` where the way to the key, and for a `Take` from there on to the next key, has more
/// nodes than `levels`, which is shown by what the seat's notes spell then. Refused besides with the causes of `make`,
/// and where a node is opened with `AddsSpent` where no add is left for it. Where it is refused, it gives the subtree
/// up. At most 3 makes a level and one more, and 15 adds a level and one more.
#[cycle(change)]
pub fn change_below(
    domain: &Domain<MapLaw>,
    seat: &mut Seat<MapLaw>,
    tree: Option<Strong>,
    key: u64,
    change: Change,
    levels: u64,
) -> Result<Changed, ChangeError>
    requires ready { IsReadyFor domain.now seat.old }
    requires owned { (x : SlotId) → of_handle tree x ≤ times x seat.old.view.core.owned }
    requires tree { IsTree tree seat.old }
    ensures changed { IfOk result (λ changed. IsChanged tree changed.tree key change changed.answer
        seat.old seat.new) }
    ensures keeps { Keeps (levels * 3 + 1) (levels * 15 + 1) (of_handle tree) (of_changed result)
        seat.old seat.new }
    ensures why { IfErr result (λ why. IsRefusal domain.now why tree levels seat.old seat.new) }
    ensures ready { IsReadyFor domain.now seat.new }
{
    let Some(node) = tree else {
        return change_null(domain, seat, key, change);
    };
    if levels == 0 {
        give_up(domain, seat, Some(node));
        return Err(ChangeError::TooLong);
    }
    let opened = take_apart(domain, seat, node)?;
    if key < opened.key {
        return change_left(domain, seat, opened, key, change, levels - 1);
    }
    if opened.key < key {
        return change_right(domain, seat, opened, key, change, levels - 1);
    }
    change_here(domain, seat, opened, change, levels - 1)
}

/// Changes a key in the left subtree of a node that was opened, and makes the node anew over it. Takes both subtrees
/// over, and gives them up where it is refused.
#[cycle(change)]
fn change_left(
    domain: &Domain<MapLaw>,
    seat: &mut Seat<MapLaw>,
    node: Opened,
    key: u64,
    change: Change,
    levels: u64,
) -> Result<Changed, ChangeError>
    requires ready { IsReadyFor domain.now seat.old }
    requires owned { OwnsBoth node.left node.right seat.old }
    requires trees { IsTree node.left seat.old × IsTree node.right seat.old }
    requires less { key < node.key }
    ensures changed { IfOk result (λ changed. IsChangedHere node.key node.value node.left node.right
        changed.tree key change changed.answer seat.old seat.new) }
    ensures keeps { Keeps (levels * 3 + 4) (levels * 15 + 14) (of_both node.left node.right)
        (of_changed result) seat.old seat.new }
    ensures why { IfErr result (λ why. IsRefusal domain.now why node.left levels
        seat.old seat.new) }
    ensures ready { IsReadyFor domain.now seat.new }
{
    match change_below(domain, seat, node.left, key, change, levels) {
        Ok(Changed { tree, answer }) => {
            let tree = mend_left(domain, seat, node.key, node.value, tree, node.right)?;
            Ok(Changed {
                tree: Some(tree),
                answer,
            })
        }
        Err(error) => {
            give_up(domain, seat, node.right);
            Err(error)
        }
    }
}

/// The same in the right subtree.
#[cycle(change)]
fn change_right(
    domain: &Domain<MapLaw>,
    seat: &mut Seat<MapLaw>,
    node: Opened,
    key: u64,
    change: Change,
    levels: u64,
) -> Result<Changed, ChangeError>
    requires ready { IsReadyFor domain.now seat.old }
    requires owned { OwnsBoth node.left node.right seat.old }
    requires trees { IsTree node.left seat.old × IsTree node.right seat.old }
    requires greater { node.key < key }
    ensures changed { IfOk result (λ changed. IsChangedHere node.key node.value node.left node.right
        changed.tree key change changed.answer seat.old seat.new) }
    ensures keeps { Keeps (levels * 3 + 4) (levels * 15 + 14) (of_both node.left node.right)
        (of_changed result) seat.old seat.new }
    ensures why { IfErr result (λ why. IsRefusal domain.now why node.right levels
        seat.old seat.new) }
    ensures ready { IsReadyFor domain.now seat.new }
{
    match change_below(domain, seat, node.right, key, change, levels) {
        Ok(Changed { tree, answer }) => {
            let tree = mend_right(domain, seat, node.key, node.value, node.left, tree)?;
            Ok(Changed {
                tree: Some(tree),
                answer,
            })
        }
        Err(error) => {
            give_up(domain, seat, node.left);
            Err(error)
        }
    }
}
