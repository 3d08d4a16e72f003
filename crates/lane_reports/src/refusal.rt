//! Why there are no rows.
ghost use Rattle.std.specs.Prelude.{◌≡◌};
ghost use Rattle.lane_reports.specs.declared.refusal.RowsError.TheVariants as refused;

use domain_audit::Spent;
use std::alloc::AllocError;
use tally_sums::OutOfMemory;

/// Why there are no rows.
#[derive(Clone, Copy, PartialEq, Eq, Debug, Drop)]
pub enum RowsError {
    /// The seat had no add left for the look at a cell.
    Spent,
    /// There was no memory.
    OutOfMemory,
}

impl From<Spent> for RowsError {
    ghost from_gives = { λ _ r. r ≡ refused.Spent };

    fn from(_error: Spent) -> RowsError {
        RowsError::Spent
    }
}

impl From<OutOfMemory> for RowsError {
    ghost from_gives = { λ _ r. r ≡ refused.OutOfMemory };

    fn from(_error: OutOfMemory) -> RowsError {
        RowsError::OutOfMemory
    }
}

impl From<AllocError> for RowsError {
    ghost from_gives = { λ _ r. r ≡ refused.OutOfMemory };

    fn from(_error: AllocError) -> RowsError {
        RowsError::OutOfMemory
    }
}
