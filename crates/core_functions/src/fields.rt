//! The test of a shape, its quotas and its grants.
ghost use Rattle.std.specs.Prelude.{◌^◌, ◌≤◌, ◌↔◌, IsTrue, All, IfSome, IsNone, sum};
ghost use Rattle.core_events.specs.Runs.{AreTerms, IsShape};
ghost use Rattle.core_functions.specs.Fields.{IsFirstBad};

use core_events::{
    MOST_BATCH, MOST_CELLS, MOST_SEATS, MOST_SLOTS, MOST_WEAK_CELLS, Quota, Shape, ShapeField,
};

const MOST_USES: u64 = 1 << 40;

/// Whether the grants add up to no more than a seat may use up.
fn are_grants(grants: &[u64]) -> bool
    ensures { IsTrue result ↔ (sum grants.now ≤ 2 ^ 40) }
{
    let mut left = MOST_USES;
    for grant in grants {
        if *grant > left {
            return false;
        }
        left -= *grant;
    }
    true
}

fn are_terms(shape: &Shape, quotas: &[Quota], grants: &[u64]) -> bool
    ensures { IsTrue result
        ↔ AreTerms shape.now (record { quotas = quotas.now; grants = grants.now }) }
{
    quotas.len() == shape.seats as usize
        && quotas.iter().all(|quota| quota.makes <= MOST_USES && quota.adds <= MOST_USES)
        && are_grants(grants)
}

/// The first field, in the order of `ShapeField`, that is out of its range.
pub fn first_bad(shape: &Shape, quotas: &[Quota], grants: &[u64]) -> Option<ShapeField>
    ensures bad { IfSome result
        (IsFirstBad shape.now (record { quotas = quotas.now; grants = grants.now })) }
    ensures good { IsNone result → IsShape shape.now
        × AreTerms shape.now (record { quotas = quotas.now; grants = grants.now }) }
{
    if shape.seats < 1 || shape.seats > MOST_SEATS {
        Some(ShapeField::Seats)
    } else if shape.slots < 1 || shape.slots > MOST_SLOTS {
        Some(ShapeField::Slots)
    } else if shape.cells > MOST_CELLS {
        Some(ShapeField::Cells)
    } else if shape.weak_cells > MOST_WEAK_CELLS {
        Some(ShapeField::WeakCells)
    } else if shape.batch < 1 || shape.batch > MOST_BATCH {
        Some(ShapeField::Batch)
    } else if !are_terms(shape, quotas, grants) {
        Some(ShapeField::Quotas)
    } else {
        None
    }
}
