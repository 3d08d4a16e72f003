//! The live record of a text.
ghost use Rattle.std.specs.Prelude.{◌+◌, ◌≤◌, IfOk, IfSome, IsErr, length, take};
ghost use Rattle.atomic_weak.specs.core_events.Steps.{HasRoom};
ghost use Rattle.atomic_weak.specs.Places.{named};
ghost use Rattle.atomic_weak.specs.control_word.Resting.{IsAtRest, IsSpent};
ghost use Rattle.record_making.specs.directory_calls.Directories.{HasQuota, IsOver, area_of};
ghost use Rattle.record_making.specs.directory_calls.Learning.{LearnsIn};
ghost use Rattle.record_making.specs.directory_calls.Steps.{Leaves, with_found};
ghost use Rattle.record_making.specs.Texts.{payload_of};
ghost use Rattle.text_reading.specs.Reading.{HasTwoFree};
ghost use Rattle.weak_intern.specs.Costs.{TakesBy};
ghost use Rattle.weak_intern.specs.Knowing.{KnowsRecord};
ghost use Rattle.weak_intern.specs.Sought.{HasPieces};
ghost use Rattle.weak_intern.specs.Walking.{Finds, found_by};

use crate::sought::Sought;
use crate::walking::{Walk, seek};
use atomic_weak::{Domain, Seat, Spent, Strong};
use record_making::{Directory, HasDirectory, hash_of, head_of};
use std::sync::Wait;

/// A strong reference to the live record of a text of 1 to 4,096 bytes, or None where it had none
/// at a step of the call. `Spent` where the seat has no add left, and comes to a head that has the
/// payload of the text's; then at its entry it had at most one left for each cell. It looks at each
/// cell at most once, and at one of them a last time: at most four steps for each try to load, 18
/// more for each cell, and one; of a long text some 700 more for each cell whose head is the text's.
/// A text of at most 120 bytes is found for one add, and one more for each record with its payload
/// that had ended.
pub fn find<R: Wait, S, P: HasDirectory<S>>(
    rt: &R,
    domain: &Domain<P>,
    seat: &mut Seat<P>,
    directory: &Directory,
    text: &[u8],
) -> Result<Option<Strong>, Spent>
    requires rest { IsAtRest domain.now seat.old }
    requires room { HasRoom seat.old.view.core }
    requires over { IsOver domain.now (P.part domain.now.protocol) directory.now }
    requires quota { HasQuota (P.seen seat.old.view.client) }
    requires text { (1 ≤ length text.now) × (length text.now ≤ 4096) }
    requires free { HasTwoFree seat.old.view.core }
    requires pieces { HasPieces P.Kind.fits }
    ensures finds { IfOk result (λ found. Finds domain.now (area_of (P.part domain.now.protocol))
        text.now (named found) seat.old seat.new) }
    ensures knows { IfOk result (λ found. IfSome found (λ strong.
        KnowsRecord P.seen text.now strong.slot seat.new)) }
    ensures takes { length text.now ≤ 120 → IfOk result (λ found. IfSome found (λ strong.
        TakesBy (payload_of (length text.now) (take 120 text.now)) strong.slot
        seat.old.view.core seat.new.view.core)) }
    ensures spent { IsErr result → IsSpent seat.new.view.core }
    ensures short { IsErr result → seat.old.view.core.quota.adds
        ≤ seat.old.view.core.adds + directory.now.cells }
    ensures leaves { Leaves (with_found (found_by result) seat.old.view.core.owned)
        seat.old.view.core.weaks seat.old seat.new }
    ensures learns { LearnsIn P.seen P.with_seen 0 seat.old.view.client seat.new.view.client }
    ensures room { HasRoom seat.new.view.core }
    ensures rest { IsAtRest domain.now seat.new }
{
    let sought = Sought {
        text,
        head: head_of(text),
        hash: hash_of(text),
    };
    match seek::<R, S, P>(rt, domain, seat, directory, &sought, false)? {
        Walk::Record(strong) => Ok(Some(strong)),
        Walk::Absent(_) => Ok(None),
    }
}
