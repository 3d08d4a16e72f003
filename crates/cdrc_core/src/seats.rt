//! The seats at the start.
ghost use Rattle.std.specs.Prelude.{◌≡◌, IfOk};
ghost use Rattle.core_law.specs.core_events.Views.{first_views};
ghost use Rattle.core_law.specs.core_events.Runs.{AreTerms, IsShape};
ghost use Rattle.cdrc_core.specs.State.{terms};

use core_views::{OutOfMemory, OwnView, Quota, Shape};
use std::alloc::Global;

/// A seat for each quota, that has done nothing. Each knows what tickets grant.
#[tactic(auto, using(crate::proofs::Starts::more_seats))]
pub fn first_seats(
    alloc: Global,
    shape: Shape,
    quotas: &[Quota],
    grants: &[u64],
) -> Result<Vec<OwnView>, OutOfMemory>
    requires sizes { IsShape shape }
    requires terms { AreTerms shape (terms quotas.now grants.now) }
    ensures { IfOk result (λ seats. seats.items ≡ first_views shape 0 quotas.now grants.now) }
{
    let mut seats = Vec::with_capacity(alloc, quotas.len())?;
    for (seat, quota) in quotas.iter().enumerate() {
        let view = OwnView::first(alloc, shape, seat as u32, *quota, grants)?;
        seats.push_reserved(view);
    }
    Ok(seats)
}
