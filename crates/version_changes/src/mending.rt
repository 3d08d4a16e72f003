//! A subtree that was changed is joined with the one beside it.
ghost use Rattle.std.specs.Prelude.{◌≡◌, IfErr, IfOk};
ghost use Rattle.map_law.specs.Patterns.{Pattern};
ghost use Rattle.map_law.specs.Plans.{joins};
ghost use Rattle.version_making.specs.Building.{IsWhy};
ghost use Rattle.version_making.specs.Keeping.{IsReadyFor, Keeps, OwnsBoth, of_answer, of_both};
ghost use Rattle.version_making.specs.Standing.{IsTree, Stands};
ghost use Rattle.version_changes.specs.Changing.{IsMended};

use crate::seeing::see_beside;
use map_protocol::MapLaw;
use slot_store::{Domain, MakeError, Seat, Strong};
use version_making::{give_up, join};

/// Joins a left subtree that was changed with the right one beside it. The right one may be higher by 2 or more, and is
/// opened then; the left one may be so where its pattern shows its top. Refused as `join` is, and both are given up
/// then. At most 3 makes and 13 adds.
pub(crate) fn mend_left(
    domain: &Domain<MapLaw>,
    seat: &mut Seat<MapLaw>,
    key: u64,
    value: u64,
    changed: Option<Strong>,
    beside: Option<Strong>,
) -> Result<Strong, MakeError>
    requires ready { IsReadyFor domain.now seat.old }
    requires owned { OwnsBoth changed beside seat.old }
    requires trees { IsTree changed seat.old × IsTree beside seat.old }
    ensures mended { IfOk result (λ node. (c : Pattern) → Stands changed c seat.old
        → IsMended (λ b. joins key value c b) node beside c seat.old seat.new) }
    ensures keeps { Keeps 3 13 (of_both changed beside) (of_answer result) seat.old seat.new }
    ensures why { IfErr result (λ why. IsWhy domain.now why seat.old seat.new) }
    ensures ready { IsReadyFor domain.now seat.new }
{
    match see_beside(domain, seat, &changed, &beside) {
        Ok(()) => join(domain, seat, key, value, changed, beside),
        Err(error) => {
            give_up(domain, seat, changed);
            give_up(domain, seat, beside);
            Err(error)
        }
    }
}

/// The same where the right subtree was changed, and the left one stands beside it.
pub(crate) fn mend_right(
    domain: &Domain<MapLaw>,
    seat: &mut Seat<MapLaw>,
    key: u64,
    value: u64,
    beside: Option<Strong>,
    changed: Option<Strong>,
) -> Result<Strong, MakeError>
    requires ready { IsReadyFor domain.now seat.old }
    requires owned { OwnsBoth changed beside seat.old }
    requires trees { IsTree changed seat.old × IsTree beside seat.old }
    ensures mended { IfOk result (λ node. (c : Pattern) → Stands changed c seat.old
        → IsMended (λ b. joins key value b c) node beside c seat.old seat.new) }
    ensures keeps { Keeps 3 13 (of_both changed beside) (of_answer result) seat.old seat.new }
    ensures why { IfErr result (λ why. IsWhy domain.now why seat.old seat.new) }
    ensures ready { IsReadyFor domain.now seat.new }
{
    match see_beside(domain, seat, &changed, &beside) {
        Ok(()) => join(domain, seat, key, value, beside, changed),
        Err(error) => {
            give_up(domain, seat, changed);
            give_up(domain, seat, beside);
            Err(error)
        }
    }
}
