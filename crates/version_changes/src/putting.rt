//! A key is changed where the way to it ends: at its node, or at null.
ghost use Rattle.std.specs.Prelude.{◌≡◌, ◌+◌, ◌*◌, IfErr, IfOk, None};
ghost use Rattle.version_making.specs.Keeping.{IsReadyFor, Keeps, OwnsBoth, none, of_both};
ghost use Rattle.version_making.specs.Standing.{IsTree};
ghost use Rattle.version_changes.specs.Changing.{IsChanged, IsChangedHere, IsRefusal};
ghost use Rattle.version_changes.specs.Keeping.{of_changed};
ghost use Rattle.version_changes.specs.Values.{value_of};

use crate::gluing::glue;
use crate::outcome::{ChangeError, Changed};
use map_protocol::MapLaw;
use map_trees::Change;
use slot_store::{Domain, Seat};
use version_making::{Opened, put_together};

/// What a key has after a change; none where it is absent.
fn value_after(change: Change, before: Option<u64>) -> Option<u64>
    ensures { result ≡ value_of change before }
{
    match change {
        Change::Put(value) => Some(value),
        Change::Bump(more) => Some(before.unwrap_or(0).saturating_add(more)),
        Change::Take => None,
    }
}

/// A leaf, or null where nothing is to be there.
pub(crate) fn change_null(
    domain: &Domain<MapLaw>,
    seat: &mut Seat<MapLaw>,
    key: u64,
    change: Change,
) -> Result<Changed, ChangeError>
    requires ready { IsReadyFor domain.now seat.old }
    ensures changed { IfOk result (λ changed. IsChanged None changed.tree key change changed.answer
        seat.old seat.new) }
    ensures keeps { Keeps 1 1 none (of_changed result) seat.old seat.new }
    ensures why { IfErr result (λ why. IsRefusal domain.now why None 0 seat.old seat.new) }
    ensures ready { IsReadyFor domain.now seat.new }
{
    let Some(value) = value_after(change, None) else {
        return Ok(Changed {
            tree: None,
            answer: None,
        });
    };
    let leaf = put_together(domain, seat, key, value, None, None)?;
    Ok(Changed {
        tree: Some(leaf),
        answer: None,
    })
}

/// The key of a node that was opened is changed: the node is made anew with another value, or both subtrees become one
/// tree. Takes both over, and gives them up where it is refused.
pub(crate) fn change_here(
    domain: &Domain<MapLaw>,
    seat: &mut Seat<MapLaw>,
    node: Opened,
    change: Change,
    levels: u64,
) -> Result<Changed, ChangeError>
    requires ready { IsReadyFor domain.now seat.old }
    requires owned { OwnsBoth node.left node.right seat.old }
    requires trees { IsTree node.left seat.old × IsTree node.right seat.old }
    ensures changed { IfOk result (λ changed. IsChangedHere node.key node.value node.left node.right
        changed.tree node.key change changed.answer seat.old seat.new) }
    ensures keeps { Keeps (levels * 3 + 4) (levels * 15 + 14) (of_both node.left node.right)
        (of_changed result) seat.old seat.new }
    ensures why { IfErr result (λ why. IsRefusal domain.now why node.right levels
        seat.old seat.new) }
    ensures ready { IsReadyFor domain.now seat.new }
{
    let answer = Some(node.value);
    let Some(value) = value_after(change, answer) else {
        let tree = glue(domain, seat, node.left, node.right, levels)?;
        return Ok(Changed { tree, answer });
    };
    let made = put_together(domain, seat, node.key, value, node.left, node.right)?;
    Ok(Changed {
        tree: Some(made),
        answer,
    })
}
