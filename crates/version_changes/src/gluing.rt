//! Two subtrees, the keys of which lie apart, as one tree.
ghost use Rattle.std.specs.Prelude.{◌≡◌, ◌+◌, ◌*◌, IfErr, IfOk};
ghost use Rattle.version_making.specs.Keeping.{IsReadyFor, Keeps, OwnsBoth, of_both};
ghost use Rattle.version_making.specs.Opening.{of_load};
ghost use Rattle.version_making.specs.Standing.{IsTree};
ghost use Rattle.version_changes.specs.Changing.{IsGlued, IsRefusal};

use crate::mending::mend_right;
use crate::outcome::ChangeError;
use crate::taking::take_least;
use map_protocol::MapLaw;
use slot_store::{Domain, Seat, Strong};
use version_making::give_up;

/// One balanced tree of two subtrees, which it takes over: the least pair of the right one comes up. Refused as
/// `take_least` and `join` are, and then both are given up.
pub(crate) fn glue(
    domain: &Domain<MapLaw>,
    seat: &mut Seat<MapLaw>,
    left: Option<Strong>,
    right: Option<Strong>,
    levels: u64,
) -> Result<Option<Strong>, ChangeError>
    requires ready { IsReadyFor domain.now seat.old }
    requires owned { OwnsBoth left right seat.old }
    requires trees { IsTree left seat.old × IsTree right seat.old }
    ensures glued { IfOk result (λ tree. IsGlued left right tree seat.old seat.new) }
    ensures keeps { Keeps (levels * 3 + 3) (levels * 15 + 13) (of_both left right)
        (of_load result) seat.old seat.new }
    ensures why { IfErr result (λ why. IsRefusal domain.now why right levels seat.old seat.new) }
    ensures ready { IsReadyFor domain.now seat.new }
{
    let Some(node) = right else { return Ok(left) };
    match take_least(domain, seat, node, levels) {
        Ok(least) => {
            let tree = mend_right(domain, seat, least.key, least.value, left, least.rest)?;
            Ok(Some(tree))
        }
        Err(error) => {
            give_up(domain, seat, left);
            Err(error)
        }
    }
}
