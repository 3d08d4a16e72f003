//! The test of a shape and its quotas.
ghost use Rattle.std.specs.Prelude.{◌↔◌, IfSome, IsNone, IsTrue};
ghost use Rattle.epoch_core.specs.Runs.{AreQuotas, IsShape};
ghost use Rattle.epoch_parts.specs.Fields.{IsFirstBad};

use core_events::{MOST_SEATS, MOST_SLOTS, ShapeField};
use epoch_core::{EpochShape, Quota};

const MOST_CELLS: u32 = 4_194_304;

const MOST_USES: u64 = 1 << 40;

fn are_quotas(shape: &EpochShape, quotas: &[Quota]) -> bool
    ensures { IsTrue result ↔ AreQuotas shape.now quotas.now }
{
    quotas.len() == shape.seats as usize
        && quotas.iter().all(|quota| quota.makes <= MOST_USES && quota.adds <= MOST_USES)
}

/// The first field, in the order of `ShapeField`, that is out of its range: 1 to 32 seats, 1 to 4,194,304 slots, at
/// most 4,194,304 cells, and a quota for each seat with at most 2^40 makes and adds. A domain under epochs has no
/// weak cells and no batch, so these two are never named.
pub fn first_bad(shape: &EpochShape, quotas: &[Quota]) -> Option<ShapeField>
    ensures bad { IfSome result (IsFirstBad shape.now quotas.now) }
    ensures good { IsNone result → IsShape shape.now × AreQuotas shape.now quotas.now }
{
    if shape.seats < 1 || shape.seats > MOST_SEATS {
        Some(ShapeField::Seats)
    } else if shape.slots < 1 || shape.slots > MOST_SLOTS {
        Some(ShapeField::Slots)
    } else if shape.cells > MOST_CELLS {
        Some(ShapeField::Cells)
    } else if !are_quotas(shape, quotas) {
        Some(ShapeField::Quotas)
    } else {
        None
    }
}
